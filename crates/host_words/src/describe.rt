// A pair in lent words described for its owner: IDs, windows, and the open transactions nearest the lowest one first.
// Assumes nothing of the words. It promises specs/Describing.antt, description, of the pair that they hold.
ghost use Rattle.std.specs.Prelude.{◌≡◌, ◌<◌, ◌≤◌, ◌+◌, ◌*◌, length};
ghost use Rattle.std.proofs.lemmas.List.Edits.{sets};
ghost use Rattle.host_words.specs.Words.{pair_of};
ghost use Rattle.host_words.specs.Describing.{
  number_at,
  entry_at,
  five,
  open_count,
  head_words,
  PutsOpen,
  description,
};

use host::Open;
use seq::{Serial, TransNo};

// The number of the transaction j past the lowest one.
pub fn number_at(words: &[u64], j: u32) -> TransNo
    ensures { result.0 ≡ number_at (pair_of words.now) j }
{
    crate::lowest(words).advance(j)
}

// Its entry.
pub fn entry_at(words: &[u64], j: u32) -> Open
    ensures { result ≡ entry_at (pair_of words.now) j }
{
    crate::entry(words, number_at(words, j))
}

// How many transactions are open.
pub fn count_open(words: &[u64]) -> u32
    ensures { result ≡ open_count 32 0 (pair_of words.now) }
{
    let mut count: u32 = 0;
    for j in 0..32u32 {
        let o = entry_at(words, j);
        if 0 < o.received {
            count += 1;
        }
    }
    count
}

// Stores the five words of an open transaction. One by one, here and in the head: tried by copy_from_slice, and the
// proof did not close.
fn put_five(out: &mut [u64], at: usize, number: TransNo, o: Open)
    requires { at + 5 ≤ length out.old }
    ensures { out.new ≡ sets out.old at (five number.0 o) }
{
    out[at] = number.0 as u64;
    out[at + 1] = o.address as u64;
    out[at + 2] = o.value as u64;
    out[at + 3] = o.count as u64;
    out[at + 4] = o.received as u64;
}

fn put_head(out: &mut [u64], words: &[u64], count: u32)
    requires { 7 ≤ length out.old }
    ensures { out.new ≡ sets out.old 0 (head_words (pair_of words.now) count) }
{
    out[0] = crate::own(words) as u64;
    out[1] = crate::peer(words) as u64;
    out[2] = crate::next(words).0 as u64;
    out[3] = crate::marks(words);
    out[4] = crate::lowest(words).0 as u64;
    out[5] = crate::closed(words) as u64;
    out[6] = count as u64;
}

// The words of the transaction j past the lowest one where it is open, from at on; and where the next ones go.
fn put_open(out: &mut [u64], at: usize, words: &[u64], j: u32) -> usize
    requires { (at + 5 ≤ length out.old) × (at < 1000) }
    ensures { PutsOpen out.old at (pair_of words.now) j out.new result }
{
    let o = entry_at(words, j);
    if 0 < o.received {
        put_five(out, at, number_at(words, j), o);
        return at + 5;
    }
    at
}

// Describes the pair that the words hold.
pub fn describe(words: &[u64]) -> [u64; 167]
    ensures { result ≡ description (pair_of words.now) }
{
    let mut out = [0u64; 167];
    put_head(&mut out, words, count_open(words));
    let mut at: usize = 7;
    for j in 0..32u32 {
        at = put_open(&mut out, at, words, j);
    }
    out
}
