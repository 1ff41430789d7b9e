// The pair in lent words, changed where it lies: an entry of the table, or all that stands before the table. Assumes
// nothing: a write past the end is none. It promises the words word for word, and the pair that 67 of them hold then
// (specs/Updating.antt).
ghost use Rattle.std.specs.Prelude.{◌≡◌, ◌%◌};
ghost use Rattle.host_words.specs.Updating.{with_entry, with_head, HoldsEntry, HoldsHead};

use crate::Head;
use host::Open;
use seq::TransNo;

// Sets the entry of the transaction with this number.
pub fn put_entry(w: &mut [u64], number: TransNo, o: Open)
    ensures w_after { w.new ≡ with_entry w.old (number.0 % 32) o }
    ensures holds_entry { HoldsEntry w.old w.new (number.0 % 32) o }
{
    let s = (number.0 % 32) as usize;
    let terms = words::of_halves(o.address, o.value);
    let counts = words::of_quarters(o.count, o.received, 0, 0);
    words::put(w, 3 + 2 * s, terms);
    words::put(w, 4 + 2 * s, counts);
}

// Sets what stands before the table.
pub fn put_head(w: &mut [u64], h: Head)
    ensures w_after { w.new ≡ with_head w.old h }
    ensures holds_head { HoldsHead w.old w.new h }
{
    let ids = words::of_quarters(h.own, h.peer, h.next.0, 0);
    let window = words::of_halves(h.lowest.0, h.closed);
    words::put(w, 0, ids);
    words::put(w, 1, h.marks);
    words::put(w, 2, window);
}
