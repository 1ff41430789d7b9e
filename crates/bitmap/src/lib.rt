// Marks kept as the bits of a word: 64 frames in a u64, 32 transactions in a u32. Assumes nothing: an index past the
// word's end names no mark. It promises what specs/Marks.antt and specs/Masks.antt say for words of any width.
#![tactic(auto, using(crate::proofs::Masks::words), unfolding(crate::specs::Marks::mark))]

pub mod word32;
pub mod word64;

ghost use Rattle.std.specs.Prelude.{◌≡◌, ℕ, ◌/◌, ◌^◌};
ghost use Rattle.bitmap.specs.Marks.{mark, with_mark, trailing_ones};
ghost use Rattle.bitmap.specs.Masks.{marks_below, marks_between};

// A word of marks. Each type has bodies of its own, a line each: no trait of std says what shifts and ands give, so a
// shared body would need a further method for each operator.
pub trait Bitmap: Copy {
    // How many marks it has, and the number that its bits are.
    ghost width: { ℕ };

    ghost bits: { Self → ℕ };

    fn is_marked(self, i: u32) -> bool
        ensures { result ≡ mark (bits self) i };

    fn with_mark(self, i: u32) -> Self
        ensures { bits result ≡ with_mark width (bits self) i };

    // The marks from k on, with mark k as the first.
    fn shifted(self, k: u32) -> Self
        ensures { bits result ≡ bits self / 2 ^ k };

    // How many marks are set before the first clear one.
    fn run_length(self) -> u32
        ensures { result ≡ trailing_ones width (bits self) };

    // The word of all marks below end.
    fn below(end: u32) -> Self
        ensures { bits result ≡ marks_below width end };

    // The word of the marks from start on that are below end.
    fn between(start: u32, end: u32) -> Self
        ensures { bits result ≡ marks_between width start end };
}
