// Choosing what goes out next: the lent acknowledgement, or the oldest held frame. Nothing changes; a part of what is
// lent is handed out, as that part or as its offset and length. Assumes nothing of words and slots. It promises what
// card/specs/Card.antt says of the card that the words hold; proofs/choose/Choosing.antt shows that both forms are the
// same part.
ghost use Rattle.std.specs.Prelude.{◌≡◌, IfOk};
ghost use Rattle.refusal.specs.Reason.{refusal_number};
ghost use Rattle.bitmap.specs.Marks.{trailing_ones};
ghost use Rattle.card.specs.Window.{any_held, before_held, oldest_held};
ghost use Rattle.card.specs.Card.{is_ack, choose_refusal};
ghost use Rattle.card_words.specs.Words.{card_of, or_other_length};
ghost use Rattle.card_send.specs.Choices.{choice_of, chosen_part, chosen_in};

use crate::show;
use crate::show::Part;
use bitmap::Bitmap;
use card_words::CARD_WORDS;
use refusal::Reason;
use seq::{FrameNo, Serial};

// What is chosen: the lent acknowledgement whole, or a frame, which is a part of the slots.
#[derive(Clone, Copy, Debug, PartialEq, Eq, Hash)]
pub enum Chosen {
    Acknowledgement,
    Frame(Part),
}

// ---- held frames

// How many of the first `most` marks are set before the first clear one.
fn run_within(marks: u64, most: u16) -> u16
    ensures { result ≡ trailing_ones most marks }
{
    (marks.run_length() as u16).min(most)
}

// How many sealed frames are acknowledged before the oldest held one; as many as are not released where none is held.
fn before_held(words: &[u64]) -> u16
    ensures { result ≡ before_held (card_of words.now).window }
{
    let h = card_words::head_of(words);
    run_within(h.acked, h.unreleased())
}

// Whether a frame is held.
fn is_any_held(words: &[u64]) -> bool
    ensures { result ≡ any_held (card_of words.now).window }
{
    let h = card_words::head_of(words);
    before_held(words) < h.unreleased()
}

// The number of the oldest held frame, where one is held.
fn oldest_held(words: &[u64]) -> FrameNo
    ensures { result.0 ≡ oldest_held (card_of words.now).window }
{
    let h = card_words::head_of(words);
    h.base.advance(before_held(words))
}

// ---- choosing

// Whether an acknowledgement is lent.
fn is_ack(ack: &[u8]) -> bool
    ensures { result ≡ is_ack ack.now }
{
    ack.len() == wire::FRAME_HEADER
}

// Refuses to choose where no acknowledgement is lent and no frame is held.
pub fn check_choose(words: &[u64], slots: &[u8], ack: &[u8]) -> Result<(), Reason>
    ensures { refusal_number result ≡ or_other_length words.now
        (choose_refusal (card_of words.now) slots.now ack.now) }
{
    if words.len() != CARD_WORDS {
        return Err(Reason::OtherLength);
    }
    let h = card_words::head_of(words);
    if !card::is_fitting(h.limit as usize, slots) {
        return Err(Reason::BadLimitOrSlots);
    }
    if !is_ack(ack) && !is_any_held(words) {
        return Err(Reason::NotHeld);
    }
    Ok(())
}

// What goes out next, and where a frame lies in the slots.
pub fn choose_part(words: &[u64], slots: &[u8], ack: &[u8]) -> Result<Chosen, Reason>
    ensures refused { refusal_number result ≡ (chosen_part words.now slots.now ack.now).refusal }
    ensures chosen { IfOk result (λ x. choice_of x ≡ chosen_part words.now slots.now ack.now) }
{
    check_choose(words, slots, ack)?;
    if is_ack(ack) {
        return Ok(Chosen::Acknowledgement);
    }
    let n = oldest_held(words);
    Ok(Chosen::Frame(show::frame_part(words, slots, n)))
}

// Chooses what goes out next: the lent acknowledgement, or the oldest held frame, each as a part of its own buffer; an
// empty part where the choice is refused.
pub fn choose_next<'a>(words: &[u64], slots: &'a [u8], ack: &'a [u8]) -> &'a [u8]
    ensures { result.now ≡ chosen_in words.now slots.now ack.now }
{
    match choose_part(words, slots, ack) {
        Ok(Chosen::Acknowledgement) => ack,
        Ok(Chosen::Frame(part)) => show::bytes_of(part, slots),
        Err(_) => &slots[..0],
    }
}
