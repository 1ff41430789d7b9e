// Words of 64 bits that a caller lends, and the numbers of 16 and 32 bits in a word. Assumes nothing: past the end a
// word is 0 and nothing is stored, and so with a fifth quarter and a third half. It promises specs/Words.antt.
#![tactic(auto)]

ghost use Rattle.std.specs.Prelude.{◌≡◌, ◌<◌, ◌^◌, get_or, set};
ghost use Rattle.words.specs.Words.{part, quarter, half, of_quarters, of_halves, with_quarter};

// ---- words

// A word, and 0 past the end.
pub fn word(w: &[u64], i: usize) -> u64
    ensures { result ≡ get_or w.now i 0 }
{
    w.get(i).copied().unwrap_or(0)
}

// Stores a word, and nothing past the end.
pub fn put(w: &mut [u64], i: usize, v: u64)
    ensures { w.new ≡ set w.old i v }
{
    // get_mut says nothing of what the words are then.
    if i < w.len() {
        w[i] = v;
    }
}

// ---- numbers in a word

// Number j of the numbers of `width` bits, the first in the word's lowest bits; 0 past the last.
fn part(x: u64, width: u32, j: u32) -> u64
    requires { (0 < width) × (width < 64) }
    ensures value { result ≡ part width x j }
    ensures fits { result < 2 ^ width }
{
    x.checked_shr(width.saturating_mul(j)).unwrap_or(0) % (1 << width)
}

// One of four numbers of 16 bits, the first in the word's lowest bits; 0 past the fourth.
pub fn quarter(x: u64, j: u32) -> u16
    ensures { result ≡ quarter x j }
{
    part(x, 16, j) as u16
}

// One of two numbers of 32 bits; 0 past the second.
pub fn half(x: u64, j: u32) -> u32
    ensures { result ≡ half x j }
{
    part(x, 32, j) as u32
}

// Four numbers of 16 bits as one word.
#[tactic(auto, unfolding(crate::specs::Words::of_parts))]
pub fn of_quarters(a: u16, b: u16, c: u16, d: u16) -> u64
    ensures { result ≡ of_quarters a b c d }
{
    u64::from(a) + (u64::from(b) << 16) + (u64::from(c) << 32) + (u64::from(d) << 48)
}

// Two numbers of 32 bits as one word. Not one function with of_quarters: it takes other numbers of another width.
#[tactic(auto, unfolding(crate::specs::Words::of_parts))]
pub fn of_halves(a: u32, b: u32) -> u64
    ensures { result ≡ of_halves a b }
{
    u64::from(a) + (u64::from(b) << 32)
}

// The word with another number as that quarter; past the fourth, as it was.
pub fn with_quarter(x: u64, j: u32, v: u16) -> u64
    ensures { result ≡ with_quarter x j v }
{
    if 4 <= j {
        return x;
    }
    let shift = 16 * j;
    x - (u64::from(quarter(x, j)) << shift) + (u64::from(v) << shift)
}
