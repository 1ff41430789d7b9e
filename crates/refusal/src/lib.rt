// Why something is refused: each reason with its number, its words and its class. Assumes nothing: any number has a
// class. It promises specs/Reason.antt and specs/Class.antt.
#![tactic(auto)]

ghost use Rattle.std.specs.Prelude.{◌≡◌};
ghost use Rattle.refusal.specs.Class.{class_of, class_number};
ghost use Rattle.refusal.specs.Reason.{number, refusal_number};

use std::error::Error;
use std::fmt;

// A refusal, by its number in the rules.
#[derive(Clone, Copy, Debug, PartialEq, Eq, Hash)]
pub enum Reason {
    // ---- the frame as a whole

    // fewer than the 10 bytes of a frame header
    FrameTooShort = 1,
    // more than 9,000 bytes
    FrameTooLong = 2,
    // not to this end, or not from its peer
    WrongId = 3,
    // a flag bit without a meaning is set
    ReservedFlag = 4,
    // a message's header or data would end past the frame
    PastFrameEnd = 5,
    // 64 to 32,767 past the next frame number
    FrameAhead = 6,

    // ---- one message

    // not one of the 32 from the lowest incomplete one
    TransactionOutsideWindow = 7,
    // in the window, and complete already
    TransactionClosed = 8,
    // count or completion is not the open transaction's
    TransactionDiffers = 9,
    // count 0, and yet there is data
    BareWithData = 10,
    // data would pass the end of memory
    DataOutsideMemory = 11,
    // the completion would pass the end of memory
    CompletionOutsideMemory = 12,

    // ---- what the caller asked for

    // an ID is 0: of an end to be opened, or of a host to be stored
    IdZero = 13,
    // a line of the replay is not whole bytes in hexadecimal
    BadLine = 14,

    // ---- storing a pair and reading it back, without a class

    // no host is stored as this text
    BadText = 15,
    // the buffer is shorter than the text
    BufferShort = 19,

    // ---- a replay from fragments, without a class

    // the replay was closed before
    ReplayClosed = 17,

    // ---- a step of the card

    // the lowest unfinished one and 31 after it were opened
    TransactionWindowFull = 20,
    // 64 sealed frames are not released
    FrameWindowFull = 21,
    // the message would end past the frame limit: seal first
    FrameFull = 22,
    // no such transaction, or it has all its messages
    NoMessageLeft = 23,
    // the frame being built has no message
    NothingToSeal = 24,
    // the frame is not held, or there is nothing to choose
    NotHeld = 25,
    // limit not 34 to 9,000, or slots not 64 times as large
    BadLimitOrSlots = 26,
    // data for a transaction of count 0
    DataForBare = 27,

    // ---- a table of cards, without a class

    // 16 cards are registered
    TableFull = 28,
    // the region has a byte of another card's
    RegionOverlaps = 29,
    // a card with this ID is registered
    SourceRegistered = 30,
    // the region is empty, or ends past the memory
    RegionOutsideMemory = 31,

    // ---- a subscriber ledger, without a class

    // the block's size is no multiple of 8
    NotWholeReadings = 40,
    // a reading's subscriber is not below 1,024
    UnknownSubscriber = 41,
    // a total, or the sum of all, would pass 64 bits
    Past64Bits = 42,

    // ---- no refusal of the rules

    // words or slots of another length than asked for were lent
    OtherLength = 255,
}

impl Reason {
    // Its number, for a caller that has only numbers. In a call of its own the compiler looks it up in a table; inlined,
    // it jumps to a branch for each reason, which takes longer.
    #[inline(never)]
    pub fn number(self) -> u8
        ensures { result ≡ number self }
    {
        self as u8
    }
}

// The number that a result comes to where only numbers pass: 0 where nothing is refused.
pub fn refusal_number<T>(done: &Result<T, Reason>) -> u8
    ensures { result ≡ refusal_number done.now }
{
    match done {
        Ok(_) => 0,
        Err(reason) => reason.number(),
    }
}

impl fmt::Display for Reason {
    fn fmt<W: fmt::Write>(&self, f: &mut fmt::Formatter<W>) -> fmt::Result {
        f.write_str(match self {
            Reason::FrameTooShort => "frame too short",
            Reason::FrameTooLong => "frame too long",
            Reason::WrongId => "wrong id",
            Reason::ReservedFlag => "reserved flag",
            Reason::PastFrameEnd => "past frame end",
            Reason::FrameAhead => "frame ahead",
            Reason::TransactionOutsideWindow => "transaction outside window",
            Reason::TransactionClosed => "transaction closed",
            Reason::TransactionDiffers => "transaction differs",
            Reason::BareWithData => "bare with data",
            Reason::DataOutsideMemory => "data outside memory",
            Reason::CompletionOutsideMemory => "completion outside memory",
            Reason::IdZero => "id zero",
            Reason::BadLine => "bad line",
            Reason::BadText => "bad text",
            Reason::BufferShort => "buffer short",
            Reason::ReplayClosed => "replay closed",
            Reason::TransactionWindowFull => "transaction window full",
            Reason::FrameWindowFull => "frame window full",
            Reason::FrameFull => "frame full",
            Reason::NoMessageLeft => "no message left",
            Reason::NothingToSeal => "nothing to seal",
            Reason::NotHeld => "not held",
            Reason::BadLimitOrSlots => "bad limit or slots",
            Reason::DataForBare => "data for bare",
            Reason::TableFull => "table full",
            Reason::RegionOverlaps => "region overlaps",
            Reason::SourceRegistered => "source registered",
            Reason::RegionOutsideMemory => "region outside memory",
            Reason::NotWholeReadings => "not whole readings",
            Reason::UnknownSubscriber => "unknown subscriber",
            Reason::Past64Bits => "past 64 bits",
            Reason::OtherLength => "other length",
        })
    }
}

impl Error for Reason {}

// The class of a refusal. Other is that of all other numbers: 15, 17, 19, 28 to 31 and 40 to 42 among them.
#[derive(Clone, Copy, Debug, PartialEq, Eq, Hash)]
pub enum Class {
    Other = 0,
    Wire = 1,
    Message = 2,
    Caller = 3,
    Card = 4,
}

// The number that stands for a class where only numbers pass.
impl From<Class> for u32 {
    ghost from_gives = { λ class n. n ≡ class_number class };

    fn from(class: Class) -> u32 {
        class as u32
    }
}

// The class of a refusal number.
#[tactic(auto, using(std::proofs::lemmas::Bool::Decides::nat_tests), unfolding(crate::specs::Class::class_of))]
pub fn class_of(n: u32) -> Class
    ensures { result ≡ class_of n }
{
    match n {
        1..=6 => Class::Wire,
        7..=12 => Class::Message,
        13 | 14 => Class::Caller,
        20..=27 => Class::Card,
        _ => Class::Other,
    }
}
