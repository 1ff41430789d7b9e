// The window of frame numbers in lent words: whether a number is new, what stands before the table once its frame is
// accepted, and the run that it acknowledges then. Assumes nothing. It promises specs/Numbering.antt.
ghost use Rattle.std.specs.Prelude.{◌≡◌};
ghost use Rattle.host_words.specs.Words.{pair_of, head_part};
ghost use Rattle.host_words.specs.Updating.{with_head};
ghost use Rattle.host_receive.specs.Numbering.{is_new, accepted_head, run_of_accepted, Accepts};

use crate::run;
use bitmap::Bitmap;
use host_words::{Head, update};
use seq::{FrameNo, Serial, TransNo};

// Whether a frame d past the next one is in the window and was not accepted yet.
#[tactic(auto, unfolding(crate::specs::Numbering::is_new))]
pub(crate) fn is_new(marks: u64, d: u16) -> bool
    ensures { result ≡ is_new marks d }
{
    d < 64 && !marks.is_marked(d as u32)
}

// A frame is accepted: it is marked, the window begins at the first number that is not accepted, and the transactions'
// window is the one that the frame leaves. Answers the run of numbers that the frame acknowledges.
pub(crate) fn accept(words: &mut [u64], number: FrameNo, lowest: TransNo, closed: u32) -> u8
    ensures value { result ≡ run_of_accepted (head_part (pair_of words.old)) number.0 }
    ensures words_after { words.new ≡ with_head words.old
        (accepted_head (head_part (pair_of words.old)) number.0 lowest.0 closed) }
    ensures accepts { Accepts words.old words.new number.0 lowest.0 closed }
{
    let next = host_words::next(words);
    let d = number.distance(next);
    let marks = host_words::marks(words);
    let marked = marks.with_mark(d as u32);
    let run = run::run_within(marked, d);
    let past = marked.run_length();
    let head = Head {
        own: host_words::own(words),
        peer: host_words::peer(words),
        next: next.advance(past as u16),
        marks: marked.shifted(past),
        lowest,
        closed,
    };
    update::put_head(words, head);
    run
}
