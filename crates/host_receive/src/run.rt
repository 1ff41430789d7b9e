// The run of frame numbers that an answer acknowledges, counted from the marks and from how far its first number is
// past the next one. Assumes nothing. It promises specs/Counting.antt, which proofs/run/Counting.antt shows to be
// runFrom of host/specs/Host.antt.
ghost use Rattle.std.specs.Prelude.{◌≡◌};
ghost use Rattle.host_receive.specs.Counting.{run_behind, run_within, run_at};

use bitmap::Bitmap;

// An acknowledgement has one byte for the count.
const MOST: u32 = 255;

// From a number that is behind on: all up to the next one, and the marks that are set from there on.
#[tactic(auto, using(crate::proofs::run::Counting::ones_low), unfolding(crate::specs::Counting::run_behind))]
fn run_behind(marks: u64, d: u16) -> u8
    ensures { result ≡ run_behind marks d }
{
    (65536 - d as u32 + marks.run_length()).min(MOST) as u8
}

// From a number in the window on: the marks that are set from its own on.
#[tactic(auto, unfolding(crate::specs::Counting::run_within))]
pub(crate) fn run_within(marks: u64, d: u16) -> u8
    ensures { result ≡ run_within marks d }
{
    marks.shifted(d as u32).run_length().min(MOST) as u8
}

// From a number on that is behind, or in the window and accepted.
#[tactic(auto, unfolding(crate::specs::Counting::run_at))]
pub(crate) fn run_at(marks: u64, d: u16) -> u8
    ensures { result ≡ run_at marks d }
{
    if 32768 <= d {
        run_behind(marks, d)
    } else {
        run_within(marks, d)
    }
}
