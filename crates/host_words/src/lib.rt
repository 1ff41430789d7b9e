// The charging host's pair in 67 words that a caller lends, read where it lies. Assumes nothing of the words or of
// their number: a word that is not there is 0. It promises the pair that the words hold (specs/Words.antt).
#![tactic(auto)]

pub mod describe;
pub mod opening;
pub mod pack;
pub mod pair;
pub mod update;

ghost use Rattle.std.specs.Prelude.{◌≡◌, ◌%◌};
ghost use Rattle.host_words.specs.Words.{entry_in, entry_of, pair_of, HeadOf};

use host::{Open, Pair};
use seq::{FrameNo, TransNo};

// A pair takes words of this length. The functions take a slice of any length, and not an array: what they promise of
// other lengths stays.
pub const WORDS: usize = 67;

// What a pair has before the table.
#[derive(Clone, Copy, Debug, PartialEq, Eq, Hash)]
pub struct Head {
    pub own: u16,
    pub peer: u16,
    pub next: FrameNo,
    pub marks: u64,
    pub lowest: TransNo,
    pub closed: u32,
}

impl From<Pair> for Head {
    ghost from_gives = { HeadOf };

    fn from(p: Pair) -> Head {
        Head {
            own: p.own,
            peer: p.peer,
            next: p.next,
            marks: p.marks,
            lowest: p.lowest,
            closed: p.closed,
        }
    }
}

pub fn own(w: &[u64]) -> u16
    ensures { result ≡ (pair_of w.now).own }
{
    words::quarter(words::word(w, 0), 0)
}

pub fn peer(w: &[u64]) -> u16
    ensures { result ≡ (pair_of w.now).peer }
{
    words::quarter(words::word(w, 0), 1)
}

pub fn next(w: &[u64]) -> FrameNo
    ensures { result ≡ (pair_of w.now).next }
{
    FrameNo(words::quarter(words::word(w, 0), 2))
}

pub fn marks(w: &[u64]) -> u64
    ensures { result ≡ (pair_of w.now).marks }
{
    words::word(w, 1)
}

pub fn lowest(w: &[u64]) -> TransNo
    ensures { result ≡ (pair_of w.now).lowest }
{
    TransNo(words::half(words::word(w, 2), 0))
}

pub fn closed(w: &[u64]) -> u32
    ensures { result ≡ (pair_of w.now).closed }
{
    words::half(words::word(w, 2), 1)
}

// The entry that two words hold.
pub(crate) fn entry_in(terms: u64, counts: u64) -> Open
    ensures { result ≡ entry_in terms counts }
{
    Open {
        address: words::half(terms, 0),
        value: words::half(terms, 1),
        count: words::quarter(counts, 0),
        received: words::quarter(counts, 1),
    }
}

// The entry of the transaction with this number, which modulo 32 chooses it.
pub fn entry(w: &[u64], number: TransNo) -> Open
    ensures { result ≡ entry_of w.now (number.0 % 32) }
{
    let s = (number.0 % 32) as usize;
    let terms = words::word(w, 3 + 2 * s);
    let counts = words::word(w, 4 + 2 * s);
    entry_in(terms, counts)
}
