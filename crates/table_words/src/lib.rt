// A table of 16 pairs in 1,121 words that a caller lends, read where it lies. Assumes nothing of the words: any hold a
// table, and one that is not there is 0. It promises the table that the words hold (specs/TableWords.antt).
#![tactic(auto)]

pub mod describe;

ghost use Rattle.std.specs.Prelude.{◌≡◌, ◌+◌, ◌%◌, ◌≤◌, ◌==◌, if◌then◌else◌, get_or, ltb, nat_lt, position};
ghost use Rattle.table.specs.Table.{overlaps, overlaps_any};
ghost use Rattle.table.specs.Reachable.{place};
ghost use Rattle.table_words.specs.TableWords.{table_of};

// A table takes words of this length, and has this many places. The sources stand from word 1 on, the first bytes of
// the regions from word 17, their lengths from word 33, and the pairs from word 49, in 67 words each.
pub const TABLE_WORDS: usize = 1121;

pub const PLACES: usize = 16;

pub const SOURCES: usize = 1;

pub const FIRSTS: usize = 17;

pub const SIZES: usize = 33;

pub const PAIRS: usize = 49;

pub const PAIR: usize = 67;

pub fn own(w: &[u64]) -> u16
    ensures { result ≡ (table_of w.now).own }
{
    (words::word(w, 0) % 65536) as u16
}

// One of the sixteen words from an index on, a place's; 0 past the sixteenth place.
fn word_at(w: &[u64], from: usize, k: usize) -> u64
    requires { from ≤ 33 }
    ensures { result ≡ (if nat_lt k 16 then get_or w.now (from + k) 0 else 0) }
{
    if k < PLACES {
        words::word(w, from + k)
    } else {
        0
    }
}

// The source at a place, 0 where it is free; the first byte of its region, and the region's length. Past the sixteenth
// place all are 0.
pub fn source_at(w: &[u64], k: usize) -> u16
    ensures { result ≡ (place (table_of w.now) k).source }
{
    (word_at(w, SOURCES, k) % 65536) as u16
}

pub fn first_at(w: &[u64], k: usize) -> u64
    ensures { result ≡ (place (table_of w.now) k).first }
{
    word_at(w, FIRSTS, k)
}

pub fn size_at(w: &[u64], k: usize) -> u64
    ensures { result ≡ (place (table_of w.now) k).size }
{
    word_at(w, SIZES, k)
}

// Where the first word stands whose lowest 16 bits are a source's: a source's place, of the part of a table's words
// that holds the sources. Where that part's length is known the compiler writes the search out, so that receiving makes
// no call for it.
pub fn position(sources: &[u64], source: u16) -> Option<usize>
    ensures { result ≡ position (λ x. x % 65536 == source) sources.now }
{
    sources
        .iter()
        .position(|word| (word % 65536) as u16 == source)
}

// Whether x lies before the end of size bytes from first on. The sum is not formed, so that nothing wraps.
pub fn before_end(x: u64, first: u64, size: u64) -> bool
    ensures { result ≡ ltb x (first + size) }
{
    x < first || x - first < size
}

// Whether a region has a byte in common with the one at a place, and with any.
fn overlaps_at(w: &[u64], k: usize, first: u64, size: u64) -> bool
    ensures { result ≡ overlaps first size (place (table_of w.now) k) }
{
    let other = first_at(w, k);
    let len = size_at(w, k);
    before_end(first, other, len) && before_end(other, first, size)
}

pub fn overlaps_any(w: &[u64], first: u64, size: u64) -> bool
    ensures { result ≡ overlaps_any first size (table_of w.now).entries }
{
    for k in 0..PLACES {
        if overlaps_at(w, k, first, size) {
            return true;
        }
    }
    false
}
