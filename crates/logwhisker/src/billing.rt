// The subscriber ledger: 2,049 words that the caller lends, which take blocks of readings and tell what each subscriber
// is charged, and all of them together. Assumes nothing: any words are a ledger, and any bytes get an answer. It
// promises what specs/Face.antt says by the definitions that the theorems of the crate ledger are about.
ghost use Rattle.std.specs.Prelude.{◌≡◌};
ghost use Rattle.ledger.specs.Ledger.{empty};
ghost use Rattle.ledger_words.specs.LedgerWords.{ledger_in};
ghost use Rattle.ledger_words.specs.LedgerCalls.{if_read};
ghost use Rattle.logwhisker.specs.Face.{LeftIfRefused, block_taken, total_told, sum_told};
ghost use Rattle.refusal.specs.Reason.{refusal_number};

use refusal::Reason;

// Opens a ledger: no subscriber was read yet.
pub fn open(words: &mut [u64; 2049])
    ensures { ledger_in words.new ≡ empty }
{
    // never refused: an array has the length of a ledger
    let _ = ledger_words::open(words);
}

// Takes a block of readings. It is refused with 40, 41 or 42, and then no word changes.
pub fn take(words: &mut [u64; 2049], block: &[u8]) -> Result<(), Reason>
    ensures value { refusal_number result ≡ (block_taken words.old block.now).refusal }
    ensures words_after { ledger_in words.new ≡ (block_taken words.old block.now).ledger }
    ensures left_if_refused { LeftIfRefused (refusal_number result) words.old words.new }
{
    ledger_words::take(words, block)
}

// What is charged to a subscriber, where it was ever read; a subscriber above 1,023 never is.
pub fn total(words: &[u64; 2049], subscriber: u32) -> Option<u64>
    ensures { result ≡ if_read (total_told words.now subscriber) }
{
    ledger_words::total(words, subscriber)
}

// The sum of all totals.
pub fn sum(words: &[u64; 2049]) -> u64
    ensures { result ≡ sum_told words.now }
{
    ledger_words::sum(words)
}
