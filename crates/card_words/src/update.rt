// Storing the parts of a card in the words that a caller lends: its head, the length of a sealed frame, a transaction.
// Assumes nothing of the words. It promises by the decoding of card_words/specs/Words.antt which card they hold then,
// and that a buffer of another length is left as it was.
ghost use Rattle.std.specs.Prelude.{◌≡◌, [], ◌∷◌};
ghost use Rattle.std.proofs.lemmas.List.Edits.{sets};
ghost use Rattle.card_words.specs.Words.{card_of, with_head, with_size, with_sending, Leaves};

use crate::{CARD_WORDS, Head};
use card::Sending;
use seq::{FrameNo, TransNo};

// Stores the first five words. One by one: `copy_from_slice` of an array compares addresses at run time, and sealing and
// opening a transaction took half as many instructions again with it.
fn put_five(w: &mut [u64], a: u64, b: u64, c: u64, d: u64, e: u64)
    ensures { w.new ≡ sets w.old 0 (a ∷ b ∷ c ∷ d ∷ e ∷ []) }
{
    words::put(w, 0, a);
    words::put(w, 1, b);
    words::put(w, 2, c);
    words::put(w, 3, d);
    words::put(w, 4, e);
}

pub fn put_head(w: &mut [u64], h: Head)
    ensures { Leaves w.old w.new (with_head (card_of w.old) h) }
{
    if w.len() != CARD_WORDS {
        return;
    }
    let ids = words::of_quarters(h.own, h.peer, h.limit, h.used);
    let frames = words::of_quarters(h.last, h.next.0, h.base.0, 0);
    let numbers = words::of_halves(h.upcoming.0, h.lowest.0);
    let finished = words::of_halves(h.finished, 0);
    put_five(w, ids, frames, h.acked, numbers, finished);
}

pub fn put_size(w: &mut [u64], n: FrameNo, size: u16)
    ensures { Leaves w.old w.new (with_size (card_of w.old) n.0 size) }
{
    if w.len() != CARD_WORDS {
        return;
    }
    let k = n.0 % 64;
    let i = 5 + (k / 4) as usize;
    let x = words::word(w, i);
    words::put(w, i, words::with_quarter(x, (k % 4) as u32, size));
}

pub fn put_sending(w: &mut [u64], t: TransNo, e: Sending)
    ensures { Leaves w.old w.new (with_sending (card_of w.old) t.0 e) }
{
    if w.len() != CARD_WORDS {
        return;
    }
    let k = (t.0 % 32) as usize;
    let terms = words::of_halves(e.address, e.value);
    let counts = words::of_quarters(e.count, e.added, e.frame.0, 0);
    words::put(w, 21 + 2 * k, terms);
    words::put(w, 22 + 2 * k, counts);
}
