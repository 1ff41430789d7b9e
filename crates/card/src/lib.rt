// The card's end of a pair as a value: its sealed frames, its transactions, and what its steps answer. Definitions
// only: specs/Card.antt says what opening and the six steps make of a card, and specs/Reachable.antt what holds of
// every card that they hand back. The crates card_* do the steps on a card kept in lent words.
#![tactic(auto)]

ghost use Rattle.std.specs.Prelude.{◌≡◌, Bool, true, false, ◌*◌, ◌%◌, ◌<◌};
ghost use Rattle.card.specs.Card.{fits};

use seq::{FrameNo, TransNo};

// The sealed frames. Bit i of acked stands for the frame base + i and is set where that is acknowledged. The frame n is
// in slot n modulo 64 and has the length that sizes gives there.
#[derive(Clone, Copy, Debug, PartialEq, Eq, Hash)]
pub struct SendWindow {
    pub acked: u64,
    pub next: FrameNo,
    pub base: FrameNo,
    pub sizes: [u16; 64],
}

// A transaction as the card sends it: its terms, how many of its messages are added, and the number of the frame that
// the latest of them went into.
#[derive(Clone, Copy, Debug, PartialEq, Eq, Hash)]
pub struct Sending {
    pub address: u32,
    pub value: u32,
    pub count: u16,
    pub added: u16,
    pub frame: FrameNo,
}

// The transactions. next is the number that the next opening gives, lowest the lowest unfinished one. Bit i of finished
// stands for the transaction lowest + i.
#[derive(Clone, Copy, Debug, PartialEq, Eq, Hash)]
pub struct Sendings {
    pub next: TransNo,
    pub lowest: TransNo,
    pub finished: u32,
    pub table: [Sending; 32],
}

// used is the length of the frame being built, 0 where there is none, and last the offset of its last message header.
#[derive(Clone, Copy, Debug, PartialEq, Eq, Hash)]
pub struct Card {
    pub own: u16,
    pub peer: u16,
    pub limit: u16,
    pub used: u16,
    pub last: u16,
    pub window: SendWindow,
    pub sendings: Sendings,
}

// What a step makes of a card. Refusal 0 is none. This record and the two below are those of the definitions in
// specs/Card.antt, on which the theorems stand: no function answers them, so that the refusal stays a number.
#[derive(Clone, Copy, Debug, PartialEq, Eq, Hash)]
pub struct Stepped {
    pub card: Card,
    pub refusal: u8,
}

#[derive(Clone, Copy, Debug, PartialEq, Eq, Hash)]
pub struct TransOpened {
    pub card: Card,
    pub refusal: u8,
    pub trans: TransNo,
}

#[derive(Clone, Copy, Debug, PartialEq, Eq, Hash)]
pub struct Sealed {
    pub card: Card,
    pub refusal: u8,
    pub number: FrameNo,
}

// Whether a frame limit is one, and the slot buffer has 64 slots of it.
#[tactic(auto, unfolding(crate::specs::Card::fits))]
pub fn is_fitting(limit: usize, slots: &[u8]) -> bool
    ensures { result ≡ fits limit slots.now }
{
    34 <= limit && limit <= wire::FRAME_MOST && slots.len() == 64 * limit
}

// Where the slot of a frame starts, in a buffer of slots of limit bytes: far below what a word holds.
pub fn slot_start(limit: u16, n: FrameNo) -> usize
    ensures { (result ≡ n.0 % 64 * limit) × (result < 4194304) }
{
    (n.0 % 64) as usize * limit as usize
}
