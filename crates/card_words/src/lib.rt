// A card in 85 words that a caller lends, and reading its parts. Assumes nothing of the words: any are a card, which
// specs/Words.antt decodes. It promises by that decoding what is read.
#![tactic(auto)]

pub mod update;

ghost use Rattle.std.specs.Prelude.{◌≡◌};
ghost use Rattle.seq.specs.Ring.{distance, frame_space, trans_space};
ghost use Rattle.card.specs.Window.{size_of};
ghost use Rattle.card.specs.Sendings.{sending_at};
ghost use Rattle.card_words.specs.Words.{card_of, head_part};

use card::Sending;
use seq::{FrameNo, Serial, TransNo};

// A card takes words of this length.
pub const CARD_WORDS: usize = 85;

// What a card holds beside the lengths of its frames and its transactions. upcoming is the number that the next opening
// of a transaction gives.
#[derive(Clone, Copy, Debug, PartialEq, Eq, Hash)]
pub struct Head {
    pub own: u16,
    pub peer: u16,
    pub limit: u16,
    pub used: u16,
    pub last: u16,
    pub acked: u64,
    pub next: FrameNo,
    pub base: FrameNo,
    pub upcoming: TransNo,
    pub lowest: TransNo,
    pub finished: u32,
}

impl Head {
    // How many sealed frames are not released.
    pub fn unreleased(self) -> u16
        ensures { result ≡ distance frame_space self.base.0 self.next.0 }
    {
        self.next.distance(self.base)
    }

    // How many transactions are opened from the lowest unfinished one on.
    pub fn opened(self) -> u32
        ensures { result ≡ distance trans_space self.lowest.0 self.upcoming.0 }
    {
        self.upcoming.distance(self.lowest)
    }
}

pub fn head_of(w: &[u64]) -> Head
    ensures { result ≡ head_part (card_of w.now) }
{
    let ids = words::word(w, 0);
    let frames = words::word(w, 1);
    let acked = words::word(w, 2);
    let numbers = words::word(w, 3);
    let finished = words::word(w, 4);
    Head {
        own: words::quarter(ids, 0),
        peer: words::quarter(ids, 1),
        limit: words::quarter(ids, 2),
        used: words::quarter(ids, 3),
        last: words::quarter(frames, 0),
        acked,
        next: FrameNo(words::quarter(frames, 1)),
        base: FrameNo(words::quarter(frames, 2)),
        upcoming: TransNo(words::half(numbers, 0)),
        lowest: TransNo(words::half(numbers, 1)),
        finished: words::half(finished, 0),
    }
}

// The length of the sealed frame n.
pub fn size_at(w: &[u64], n: FrameNo) -> u16
    ensures { result ≡ size_of (card_of w.now).window n.0 }
{
    let k = n.0 % 64;
    words::quarter(words::word(w, 5 + (k / 4) as usize), (k % 4) as u32)
}

// What is known of transaction t.
pub fn sending_at(w: &[u64], t: TransNo) -> Sending
    ensures { result ≡ sending_at (card_of w.now).sendings t.0 }
{
    let k = (t.0 % 32) as usize;
    let a = words::word(w, 21 + 2 * k);
    let b = words::word(w, 22 + 2 * k);
    Sending {
        address: words::half(a, 0),
        value: words::half(a, 1),
        count: words::quarter(b, 0),
        added: words::quarter(b, 1),
        frame: FrameNo(words::quarter(b, 2)),
    }
}
