// Which sealed frames are acknowledged once an acknowledgement is read: those that were, and those that its range
// covers. The card is in words that are lent to be read. Assumes nothing of the words. It promises what
// card/specs/Window.antt says, acknowledged_by, of the card that the words hold.
ghost use Rattle.std.specs.Prelude.{◌≡◌};
ghost use Rattle.bitmap.specs.Marks.{marks_of};
ghost use Rattle.card.specs.Window.{acknowledged_by};
ghost use Rattle.card_words.specs.Words.{card_of};
ghost use Rattle.card_acks.specs.Covering.{covered_by};

use bitmap::Bitmap;
use seq::{FrameNo, Serial};

// The frames that an acknowledgement names: the count numbers from start on.
#[derive(Clone, Copy, Debug, PartialEq, Eq, Hash)]
pub(crate) struct Range {
    pub start: FrameNo,
    pub count: u8,
}

// Marks of the frames from base on that are in a range: a run of them, from the distance of its start on, and where
// that run wraps to base, one from base on too.
fn covered(base: FrameNo, range: Range) -> u64
    ensures { result ≡ marks_of 64 (covered_by base.0 range.start.0 range.count) }
{
    let first = range.start.distance(base) as u32;
    let end = first + range.count as u32;
    let run = u64::between(first, end);
    if end <= 65536 {
        return run;
    }
    run | u64::below(end - 65536)
}

// Marks of the frames that are acknowledged once a range is. Only sealed ones are.
pub(crate) fn acknowledged_marks(words: &[u64], range: Range) -> u64
    ensures { result ≡ marks_of 64 (acknowledged_by (card_of words.now).window range.start.0 range.count) }
{
    let h = card_words::head_of(words);
    let sealed = u64::below(h.unreleased() as u32);
    (h.acked | covered(h.base, range)) & sealed
}
