// A subscriber ledger for C, behind the functions of include/logwhisker.h: numbers, slices and references to arrays
// only. Assumes of a caller that pointers and lengths are right. It promises what the library's face does.
ghost use Rattle.std.specs.Prelude.{◌≡◌, cond};
ghost use Rattle.ledger.specs.Ledger.{empty};
ghost use Rattle.ledger_words.specs.LedgerWords.{ledger_in};
ghost use Rattle.logwhisker.specs.Face.{LeftIfRefused, block_taken, total_told, sum_told};

use logwhisker::{billing, refusal_number};

// Opens a ledger.
#[unsafe(no_mangle)]
pub extern "C" fn lw_raw_ledger_open(words: &mut [u64; 2049])
    ensures { ledger_in words.new ≡ empty }
{
    billing::open(words)
}

// Takes a block of readings: 0, or the refusal.
#[unsafe(no_mangle)]
pub extern "C" fn lw_raw_ledger_take(words: &mut [u64; 2049], block: &[u8]) -> u32
    ensures value { result ≡ (block_taken words.old block.now).refusal }
    ensures words_after { ledger_in words.new ≡ (block_taken words.old block.now).ledger }
    ensures left_if_refused { LeftIfRefused result words.old words.new }
{
    u32::from(refusal_number(&billing::take(words, block)))
}

// Writes what is charged to a subscriber, and answers 1 where it was ever read, else 0.
#[unsafe(no_mangle)]
pub extern "C" fn lw_raw_ledger_total(words: &[u64; 2049], subscriber: u32, total: &mut u64) -> u32
    ensures value { result ≡ cond (total_told words.now subscriber).read 1 0 }
    ensures total_after { total.new ≡ (total_told words.now subscriber).bytes }
{
    let told = billing::total(words, subscriber);
    *total = told.unwrap_or(0);
    u32::from(told.is_some())
}

// The sum of what is charged to all.
#[unsafe(no_mangle)]
pub extern "C" fn lw_raw_ledger_sum(words: &[u64; 2049]) -> u64
    ensures { result ≡ sum_told words.now }
{
    billing::sum(words)
}
