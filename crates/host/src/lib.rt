// The charging host's end of a pair by value: what it knows, and what it answers. Types only. What opening, receiving
// and acknowledging come to is defined in specs/: Terms.antt and Transactions.antt for one message, Host.antt for
// frames. What specs/Reachable.antt says is kept by all of it.
#![tactic(auto)]

use seq::{FrameNo, TransNo};

// An open transaction: what its first message said of it, and how many were received.
#[derive(Clone, Copy, Debug, PartialEq, Eq, Hash)]
pub struct Open {
    pub address: u32,
    pub value: u32,
    pub count: u16,
    pub received: u16,
}

// An entry that holds no transaction.
pub const FREE: Open = Open {
    address: 0,
    value: 0,
    count: 0,
    received: 0,
};

// The verdict on a message: its refusal, or 0; whether it completes its transaction; and the window and the
// transaction's entry after it. A record of the definitions (verdict_of in specs/Transactions.antt), on which the
// theorems stand: no function answers it, so that the refusal stays a number.
#[derive(Clone, Copy, Debug, PartialEq, Eq, Hash)]
pub struct Verdict {
    pub refusal: u8,
    pub done: bool,
    pub lowest: TransNo,
    pub closed: u32,
    pub entry: Open,
}

// What the host knows of its peer's frames and transactions. Bit i of marks stands for the frame next + i and is set
// where that was accepted; bit i of closed for the transaction lowest + i. An open transaction is in the entry of the
// table that its number modulo 32 gives; an entry with none is all zeros.
#[derive(Clone, Copy, Debug, PartialEq, Eq, Hash)]
pub struct Pair {
    pub own: u16,
    pub peer: u16,
    pub next: FrameNo,
    pub marks: u64,
    pub lowest: TransNo,
    pub closed: u32,
    pub table: [Open; 32],
}

// A refusal's number, and the index of the message that it is about, or 0. A number and no Reason, since an answer is
// handed in too, and any number has its words and its text (answer_words in specs/Host.antt).
#[derive(Clone, Copy, Debug, PartialEq, Eq, Hash)]
pub struct Refusal {
    pub number: u8,
    pub place: u32,
}

// What an accepted frame brought.
#[derive(Clone, Copy, Debug, PartialEq, Eq, Hash)]
pub struct Sums {
    pub messages: u32,
    pub bytes: u32,
    pub completed: u32,
}

// "Again" (a term of the rules) is a frame that was accepted before or lies behind. Accepted and again end with the
// length of the run of frame numbers that they acknowledge.
#[derive(Clone, Copy, Debug, PartialEq, Eq, Hash)]
pub enum Answer {
    Accepted(FrameNo, Sums, u8),
    Again(FrameNo, u8),
    NoMessages,
    Refused(Refusal),
}

// A pair and the refusal of its opening, number 0 for none: a refused opening hands back a pair too, with both IDs 0.
#[derive(Clone, Copy, Debug, PartialEq, Eq, Hash)]
pub struct Opened {
    pub pair: Pair,
    pub refusal: Refusal,
}

#[derive(Clone, Copy, Debug, PartialEq, Eq, Hash)]
pub struct Stepped {
    pub pair: Pair,
    pub answer: Answer,
}

// Frame numbers: count of them from start on.
#[derive(Clone, Copy, Debug, PartialEq, Eq, Hash)]
pub struct Range {
    pub start: FrameNo,
    pub count: u8,
}

// The ten bytes to be sent, where an acknowledgement is due.
pub type Acknowledgement = Option<[u8; 10]>;
