// Marks in a word of 32 bits. The facts about marks are shown once for any width, and cited here at 32.
use crate::Bitmap;

impl Bitmap for u32 {
    ghost width = { 32 };

    ghost bits = { λ m. m };

    fn is_marked(self, i: u32) -> bool {
        self.shifted(i) % 2 == 1
    }

    fn with_mark(self, i: u32) -> u32 {
        if i < 32 { self | (1 << i) } else { self }
    }

    fn shifted(self, k: u32) -> u32 {
        self.checked_shr(k).unwrap_or(0)
    }

    fn run_length(self) -> u32 {
        self.trailing_ones()
    }

    fn below(end: u32) -> u32 {
        if end < 32 { (1 << end) - 1 } else { u32::MAX }
    }

    fn between(start: u32, end: u32) -> u32 {
        u32::below(end) & !u32::below(start)
    }
}
