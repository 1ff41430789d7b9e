// Opening a charging host's pair in 67 words that a caller lends. Assumes nothing: words of another number stay as they
// are. It promises the pair that the words hold then, and the refusal (specs/Opening.antt).
ghost use Rattle.refusal.specs.Reason.{refusal_number};
ghost use Rattle.host_words.specs.Opening.{opening, HoldsOpened, Opens};

use crate::{pack, pair};
use host::Pair;
use refusal::Reason;

// Makes 67 words hold a pair, and hands on what its opening or reading was refused for, if so. Words of another number
// stay as they are.
pub fn put_opened(w: &mut [u64], p: Pair, done: Result<(), Reason>) -> Result<(), Reason>
    ensures { HoldsOpened w.old (record { pair = p; refusal = record { number = refusal_number done; place = 0 } })
        w.new (refusal_number result) }
{
    if w.len() != crate::WORDS {
        return Err(Reason::OtherLength);
    }
    pack::pack(w, p);
    done
}

// Makes 67 words hold the pair that was opened or read; where that was refused, a pair with both IDs 0. Words of
// another number stay as they are.
pub fn put_opening(w: &mut [u64], opened: Result<Pair, Reason>) -> Result<(), Reason>
    ensures { HoldsOpened w.old (opening opened) w.new (refusal_number result) }
{
    match opened {
        Ok(p) => put_opened(w, p, Ok(())),
        Err(reason) => put_opened(w, pair::fresh_pair(0, 0), Err(reason)),
    }
}

// Opens a pair in 67 words: refusal 13 where an ID is 0. Words of another number stay as they are. The pair is no value
// of a `Result` here, and so the compiler clears the words at once.
pub fn open_in_place(w: &mut [u64], own: u16, peer: u16) -> Result<(), Reason>
    ensures { Opens w.old own peer w.new (refusal_number result) }
{
    let allowed = pair::check_ids(own, peer);
    let (own, peer) = if allowed.is_ok() { (own, peer) } else { (0, 0) };
    put_opened(w, pair::fresh_pair(own, peer), allowed)
}
