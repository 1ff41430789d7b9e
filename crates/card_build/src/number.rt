// The two steps that give a number: opening a transaction, and sealing the frame being built. The card is in words that
// are lent and changed in place; no slot is written. Assumes nothing of words and slots. It promises what
// card/specs/Card.antt says of the card that the words hold, and that a refused step changes no word.
ghost use Rattle.std.specs.Prelude.{◌≡◌, IfOk};
ghost use Rattle.refusal.specs.Reason.{refusal_number};
ghost use Rattle.card.specs.Card.{open_transaction, seal_refusal, seal_frame};
ghost use Rattle.card_words.specs.Words.{card_of, Steps};
ghost use Rattle.card_build.specs.Numbering.{opened_in, sealed_in};

use card::Sending;
use card_words::{CARD_WORDS, Head, update};
use refusal::Reason;
use seq::{FrameNo, Serial, TransNo};

// ---- opening a transaction

// Opens a transaction of count data messages whose completion writes value at address, and gives its number.
pub fn open_transaction(
    words: &mut [u64],
    count: u16,
    address: u32,
    value: u32,
) -> Result<TransNo, Reason>
    ensures refused { refusal_number result ≡ (opened_in words.old count address value).refusal }
    ensures opened { IfOk result (λ trans. trans
        ≡ (opened_in words.old count address value).trans) }
    ensures steps { Steps words.old words.new (refusal_number result)
        (open_transaction (card_of words.old) count address value).card }
{
    if words.len() != CARD_WORDS {
        return Err(Reason::OtherLength);
    }
    let h = card_words::head_of(words);
    if 32 <= h.opened() {
        return Err(Reason::TransactionWindowFull);
    }
    let trans = h.upcoming;
    update::put_sending(
        words,
        trans,
        Sending {
            address,
            value,
            count,
            added: 0,
            frame: FrameNo(0),
        },
    );
    update::put_head(
        words,
        Head {
            upcoming: trans.advance(1),
            ..h
        },
    );
    Ok(trans)
}

// ---- sealing

// Refuses slots that don't fit, and a frame with nothing in it.
fn check_sealing(words: &[u64], slots: &[u8]) -> Result<(), Reason>
    ensures { refusal_number result ≡ seal_refusal (card_of words.now) slots.now }
{
    let h = card_words::head_of(words);
    if !card::is_fitting(h.limit as usize, slots) {
        return Err(Reason::BadLimitOrSlots);
    }
    if h.used == 0 {
        return Err(Reason::NothingToSeal);
    }
    Ok(())
}

// Seals the frame being built, and gives its number. The slots are lent for their length.
pub fn seal_frame(words: &mut [u64], slots: &[u8]) -> Result<FrameNo, Reason>
    ensures refused { refusal_number result ≡ (sealed_in words.old slots.now).refusal }
    ensures sealed { IfOk result (λ number. number ≡ (sealed_in words.old slots.now).number) }
    ensures steps { Steps words.old words.new (refusal_number result)
        (seal_frame (card_of words.old) slots.now).card }
{
    if words.len() != CARD_WORDS {
        return Err(Reason::OtherLength);
    }
    check_sealing(words, slots)?;
    let h = card_words::head_of(words);
    let number = h.next;
    update::put_size(words, number, h.used);
    update::put_head(
        words,
        Head {
            used: 0,
            last: 0,
            next: number.advance(1),
            ..h
        },
    );
    Ok(number)
}
