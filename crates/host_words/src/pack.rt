// A whole pair between a value and 67 lent words: packed into them, and unpacked. Assumes nothing: words of another
// number stay as they are. It promises the pair that the words hold then (specs/Packing.antt).
ghost use Rattle.std.specs.Prelude.{◌≡◌};
ghost use Rattle.host_words.specs.Words.{pair_of};
ghost use Rattle.host_words.specs.Packing.{HoldsTable, Holds};

use crate::{Head, update};
use host::{Open, Pair};
use seq::TransNo;

// The table of the words.
fn table_of(w: &[u64]) -> [Open; 32]
    ensures { result ≡ (pair_of w.now).table }
{
    std::array::from_fn(|i| crate::entry(w, TransNo(i as u32)))
}

// The pair that the words hold.
pub fn unpack(w: &[u64]) -> Pair
    ensures { result ≡ pair_of w.now }
{
    Pair {
        own: crate::own(w),
        peer: crate::peer(w),
        next: crate::next(w),
        marks: crate::marks(w),
        lowest: crate::lowest(w),
        closed: crate::closed(w),
        table: table_of(w),
    }
}

fn put_table(w: &mut [u64], table: [Open; 32])
    ensures { HoldsTable w.old w.new table }
{
    for (i, o) in table.iter().enumerate() {
        update::put_entry(w, TransNo(i as u32), *o);
    }
}

// Makes 67 words hold the pair; others stay as they are.
pub fn pack(w: &mut [u64], p: Pair)
    ensures { Holds w.old w.new p }
{
    if w.len() != crate::WORDS {
        return;
    }
    update::put_head(w, Head::from(p));
    put_table(w, p.table);
}
