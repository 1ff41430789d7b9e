// A line of hexadecimal: what is known of it after some of its characters, and the values of digits. Assumes nothing.
// It promises what specs/Taking.antt says of a line and specs/Walking.antt of the table; proofs/line/Decoding.antt
// shows what frame a line spells.
ghost use Rattle.std.specs.Prelude.{◌≡◌, ◌<◌, get_or};
ghost use Rattle.hexadecimal.specs.Taking.{start, refused_line, empty_line};
ghost use Rattle.hexadecimal.specs.Walking.{digit_values};

// Bytes of a line that are counted: one more than a frame can have, so that a longer line still reads as too long.
pub const COUNTED: usize = 9001;

// The line being read: the bytes complete so far, of which no more than COUNTED are counted; the digit that waits for
// its second half, if odd says that there is one; and whether a character was no digit. A digit that waits no longer is
// kept, since the nine words of a replay's place have it, as the definition place_words says.
#[derive(Clone, Copy, Debug, PartialEq, Eq, Hash)]
pub struct Line {
    pub len: usize,
    pub half: u8,
    pub odd: bool,
    pub bad: bool,
}

// What a piece of the input gave: the line so far, the index behind what was taken, and whether the line has ended.
#[derive(Clone, Copy, Debug, PartialEq, Eq, Hash)]
pub struct Taken {
    pub line: Line,
    pub at: usize,
    pub ended: bool,
}

impl Line {
    // No character yet.
    #[tactic(auto, unfolding(crate::specs::Taking::start))]
    pub fn start() -> Line
        ensures { result ≡ start }
    {
        Line {
            len: 0,
            half: 0,
            odd: false,
            bad: false,
        }
    }

    // Whether it gets refusal 14 if it ends here.
    #[tactic(auto, unfolding(crate::specs::Taking::refused_line))]
    pub fn is_refused(self) -> bool
        ensures { result ≡ refused_line self }
    {
        self.bad || self.odd
    }

    // Whether it has no character at all.
    #[tactic(auto, unfolding(crate::specs::Taking::empty_line))]
    pub fn is_empty(self) -> bool
        ensures { result ≡ empty_line self }
    {
        !self.bad && !self.odd && self.len == 0
    }
}

// The value of each character as a digit, and 16 where it is none, sixteen characters to a row: 0 to 9 are in the
// fourth row, A to F in the fifth, a to f in the seventh. A loop calls it before its first turn, since a call copies
// the table.
pub(crate) fn digit_values() -> [u8; 256]
    ensures { result ≡ digit_values }
{
    *b"\
        \x10\x10\x10\x10\x10\x10\x10\x10\x10\x10\x10\x10\x10\x10\x10\x10\
        \x10\x10\x10\x10\x10\x10\x10\x10\x10\x10\x10\x10\x10\x10\x10\x10\
        \x10\x10\x10\x10\x10\x10\x10\x10\x10\x10\x10\x10\x10\x10\x10\x10\
        \x00\x01\x02\x03\x04\x05\x06\x07\x08\x09\x10\x10\x10\x10\x10\x10\
        \x10\x0A\x0B\x0C\x0D\x0E\x0F\x10\x10\x10\x10\x10\x10\x10\x10\x10\
        \x10\x10\x10\x10\x10\x10\x10\x10\x10\x10\x10\x10\x10\x10\x10\x10\
        \x10\x0a\x0b\x0c\x0d\x0e\x0f\x10\x10\x10\x10\x10\x10\x10\x10\x10\
        \x10\x10\x10\x10\x10\x10\x10\x10\x10\x10\x10\x10\x10\x10\x10\x10\
        \x10\x10\x10\x10\x10\x10\x10\x10\x10\x10\x10\x10\x10\x10\x10\x10\
        \x10\x10\x10\x10\x10\x10\x10\x10\x10\x10\x10\x10\x10\x10\x10\x10\
        \x10\x10\x10\x10\x10\x10\x10\x10\x10\x10\x10\x10\x10\x10\x10\x10\
        \x10\x10\x10\x10\x10\x10\x10\x10\x10\x10\x10\x10\x10\x10\x10\x10\
        \x10\x10\x10\x10\x10\x10\x10\x10\x10\x10\x10\x10\x10\x10\x10\x10\
        \x10\x10\x10\x10\x10\x10\x10\x10\x10\x10\x10\x10\x10\x10\x10\x10\
        \x10\x10\x10\x10\x10\x10\x10\x10\x10\x10\x10\x10\x10\x10\x10\x10\
        \x10\x10\x10\x10\x10\x10\x10\x10\x10\x10\x10\x10\x10\x10\x10\x10\
        "
}

// What a table has for a character, which is below 256: 16 for no digit, as the definition digit_values has it, so that
// a turn of the loop looks both digits up before it tests either.
pub(crate) fn digit_value(values: &[u8; 256], c: u8) -> u8
    ensures { (result ≡ get_or values.now c 0) × (c < 256) }
{
    values[c as usize]
}
