// Which transactions are finished once frames are released: those that were, and those whose last message lies in a
// frame released now. The card is in words that are lent to be read. Assumes nothing of the words. It promises what
// card/specs/Sendings.antt says, finished_by, of the card that the words hold.
ghost use Rattle.std.specs.Prelude.{◌≡◌};
ghost use Rattle.bitmap.specs.Marks.{marks_of};
ghost use Rattle.card.specs.Sendings.{all_released, finished_by};
ghost use Rattle.card_words.specs.Words.{card_of};
ghost use Rattle.card_acks.specs.Finishing.{finished_now, finished_before};

use bitmap::Bitmap;
use card::Sending;
use card_words::Head;
use seq::{FrameNo, Serial};

// The frames that a step releases: from `from` up to but not including base.
#[derive(Clone, Copy, Debug, PartialEq, Eq, Hash)]
pub(crate) struct Released {
    pub from: FrameNo,
    pub base: FrameNo,
}

// Whether all messages are added and the latest lies in a frame that is released now.
#[tactic(auto, unfolding(card::specs::Sendings::all_released))]
fn is_all_released(e: Sending, released: Released) -> bool
    ensures { result ≡ all_released e released.from.0 released.base.0 }
{
    let Released { from, base } = released;
    e.added == wire::messages_needed(e.count) && e.frame.distance(from) < base.distance(from)
}

// Whether an opened transaction, the i-th from the lowest on, is finished once these frames are released.
fn is_finished(words: &[u64], h: Head, released: Released, i: u32) -> bool
    ensures { result ≡ finished_now (card_of words.now).sendings h.finished h.lowest.0
        released.from.0 released.base.0 i }
{
    if h.finished.is_marked(i) {
        return true;
    }
    let e = card_words::sending_at(words, h.lowest.advance(i));
    is_all_released(e, released)
}

// Marks of the transactions that are finished already. Only opened ones are, whatever the words say.
fn marked_before(words: &[u64]) -> u32
    ensures { result ≡ marks_of 32 (finished_before (card_of words.now).sendings) }
{
    let h = card_words::head_of(words);
    h.finished & u32::below(h.opened())
}

// Marks of the transactions that are finished once frames are released, each looked at. Only opened ones are, so that
// no other is.
fn marked_now(words: &[u64], released: Released) -> u32
    ensures { result ≡ marks_of 32 (finished_by (card_of words.now).sendings
        released.from.0 released.base.0) }
{
    let h = card_words::head_of(words);
    let mut finished: u32 = 0;
    for i in 0..h.opened().min(32) {
        if is_finished(words, h, released, i) {
            finished = finished.with_mark(i);
        }
    }
    finished
}

// Marks of the transactions finished once these frames are released. Most acknowledgements that come out of order
// release none, and then no transaction has to be looked at.
pub(crate) fn finished_marks(words: &[u64], released: Released) -> u32
    ensures { result ≡ marks_of 32 (finished_by (card_of words.now).sendings
        released.from.0 released.base.0) }
{
    if released.base.distance(released.from) == 0 {
        return marked_before(words);
    }
    marked_now(words, released)
}
