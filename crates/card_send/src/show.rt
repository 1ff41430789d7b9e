// Showing a held frame. Nothing changes; a part of the lent slots is handed out, as that part or as its offset and
// length. Assumes nothing of words and slots. It promises what card/specs/Card.antt says of the card that the words
// hold; proofs/show/Parts.antt shows that both forms are the same part.
ghost use Rattle.std.specs.Prelude.{◌≡◌, ◌+◌, ◌≤◌, IfOk, length};
ghost use Rattle.refusal.specs.Reason.{refusal_number};
ghost use Rattle.card.specs.Window.{held};
ghost use Rattle.card.specs.Card.{show_refusal};
ghost use Rattle.card_words.specs.Words.{card_of, or_other_length};
ghost use Rattle.card_send.specs.Parts.{part_of, frame_part, shown_part, shown_in};

use bitmap::Bitmap;
use card_words::CARD_WORDS;
use refusal::Reason;
use seq::{FrameNo, Serial};

// A part of a lent buffer.
#[derive(Clone, Copy, Debug, PartialEq, Eq, Hash)]
pub struct Part {
    pub offset: usize,
    pub len: usize,
}

// ---- sealed frames

// Whether the frame is sealed and not acknowledged.
fn is_held(words: &[u64], n: FrameNo) -> bool
    ensures { result ≡ held (card_of words.now).window n.0 }
{
    let h = card_words::head_of(words);
    let d = n.distance(h.base);
    d < h.unreleased() && !h.acked.is_marked(d as u32)
}

// Where the sealed frame of a number lies in the slots.
pub(crate) fn frame_part(words: &[u64], slots: &[u8], n: FrameNo) -> Part
    ensures { result ≡ frame_part (card_of words.now) slots.now n.0 }
{
    let h = card_words::head_of(words);
    let offset = card::slot_start(h.limit, n);
    let len = card_words::size_at(words, n) as usize;
    if offset + len <= slots.len() {
        return Part { offset, len };
    }
    Part { offset: 0, len: 0 }
}

// The bytes of a part of the slots.
pub(crate) fn bytes_of(p: Part, slots: &[u8]) -> &[u8]
    requires { p.offset + p.len ≤ length slots.now }
    ensures { result.now ≡ part_of p slots.now }
{
    let start = p.offset;
    let end = start + p.len;
    &slots[start..end]
}

// ---- showing

// Refuses to show a frame that is not held.
pub fn check_show(words: &[u64], slots: &[u8], n: FrameNo) -> Result<(), Reason>
    ensures { refusal_number result
        ≡ or_other_length words.now (show_refusal (card_of words.now) slots.now n.0) }
{
    if words.len() != CARD_WORDS {
        return Err(Reason::OtherLength);
    }
    let h = card_words::head_of(words);
    if !card::is_fitting(h.limit as usize, slots) {
        return Err(Reason::BadLimitOrSlots);
    }
    if !is_held(words, n) {
        return Err(Reason::NotHeld);
    }
    Ok(())
}

// Where a held frame lies in the slots.
pub fn show_part(words: &[u64], slots: &[u8], n: FrameNo) -> Result<Part, Reason>
    ensures refused { refusal_number result ≡ (shown_part words.now slots.now n.0).refusal }
    ensures shown { IfOk result (λ part. part ≡ (shown_part words.now slots.now n.0).part) }
{
    check_show(words, slots, n)?;
    Ok(frame_part(words, slots, n))
}

// Shows a held frame: a part of the slots, empty where the showing is refused.
pub fn show_frame<'a>(words: &[u64], slots: &'a [u8], n: FrameNo) -> &'a [u8]
    ensures { result.now ≡ shown_in words.now slots.now n.0 }
{
    match show_part(words, slots, n) {
        Ok(part) => bytes_of(part, slots),
        Err(_) => &slots[..0],
    }
}
