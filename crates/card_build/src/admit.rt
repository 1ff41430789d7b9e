// Which message the frame being built admits: the refusals of adding one, in their order. The card is in words that are
// lent to be read; the slot buffer is lent for its length. Assumes nothing of words, slots and data. It promises what
// card/specs/Card.antt refuses for the card that the words hold.
ghost use Rattle.std.specs.Prelude.{◌≡◌, ◌&&◌, ◌+◌, eqb, ltb, length};
ghost use Rattle.refusal.specs.Reason.{refusal_number};
ghost use Rattle.wire.specs.Format.{next_header};
ghost use Rattle.card.specs.Sendings.{takes};
ghost use Rattle.card.specs.Card.{add_refusal};
ghost use Rattle.card_words.specs.Words.{card_of};

use refusal::Reason;
use seq::{Serial, TransNo};

// Whether a message of transaction t may be added.
fn is_taking(words: &[u64], t: TransNo) -> bool
    ensures { result ≡ takes (card_of words.now).sendings t.0 }
{
    let h = card_words::head_of(words);
    let e = card_words::sending_at(words, t);
    t.distance(h.lowest) < h.opened() && e.added < wire::messages_needed(e.count)
}

// Whether there is data for the one message of a transaction of count 0.
fn is_data_for_bare(count: u16, payload: &[u8]) -> bool
    ensures { result ≡ (eqb count 0 && ltb 0 (length payload.now)) }
{
    count == 0 && !payload.is_empty()
}

// Where the header of the next message goes, past the used bytes of the frame being built.
pub(crate) fn header_offset(used: u16) -> usize
    ensures { result ≡ next_header used }
{
    wire::next_header(used as usize)
}

// Whether a message with this data would end past the limit.
fn is_past_limit(limit: u16, used: u16, payload: &[u8]) -> bool
    ensures { result ≡ ltb limit (next_header used + 24 + length payload.now) }
{
    let most = limit as usize;
    let start = header_offset(used) + wire::MESSAGE_HEADER;
    most < start || most - start < payload.len()
}

// Refuses a message of transaction t with this data that may not be added. The slots are lent for their length.
pub(crate) fn check_adding(
    words: &[u64],
    slots: &[u8],
    t: TransNo,
    payload: &[u8],
) -> Result<(), Reason>
    ensures { refusal_number result ≡ add_refusal (card_of words.now) slots.now t.0 payload.now }
{
    let h = card_words::head_of(words);
    if !card::is_fitting(h.limit as usize, slots) {
        return Err(Reason::BadLimitOrSlots);
    }
    if !is_taking(words, t) {
        return Err(Reason::NoMessageLeft);
    }
    if is_data_for_bare(card_words::sending_at(words, t).count, payload) {
        return Err(Reason::DataForBare);
    }
    if 64 <= h.unreleased() {
        return Err(Reason::FrameWindowFull);
    }
    if is_past_limit(h.limit, h.used, payload) {
        return Err(Reason::FrameFull);
    }
    Ok(())
}
