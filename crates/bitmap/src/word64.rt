// Marks in a word of 64 bits. The facts about marks are shown once for any width, and cited here at 64.
use crate::Bitmap;

impl Bitmap for u64 {
    ghost width = { 64 };

    ghost bits = { λ m. m };

    fn is_marked(self, i: u32) -> bool {
        self.shifted(i) % 2 == 1
    }

    fn with_mark(self, i: u32) -> u64 {
        if i < 64 { self | (1 << i) } else { self }
    }

    fn shifted(self, k: u32) -> u64 {
        self.checked_shr(k).unwrap_or(0)
    }

    fn run_length(self) -> u32 {
        self.trailing_ones()
    }

    fn below(end: u32) -> u64 {
        if end < 64 { (1 << end) - 1 } else { u64::MAX }
    }

    fn between(start: u32, end: u32) -> u64 {
        u64::below(end) & !u64::below(start)
    }
}
