// The wire format: its types, and where the next header goes. Assumes nothing. It promises specs/Format.antt; what a
// frame's bytes mean is specs/Reading.antt and specs/Writing.antt, that what is written reads back is
// proofs/RoundTrip.antt, and the crates wire_read and wire_write have the code.
#![tactic(auto)]

ghost use Rattle.std.specs.Prelude.{◌≡◌};
ghost use Rattle.wire.specs.Format.{needed, header_after};

use seq::{FrameNo, TransNo};

// Frames longer than this are refused.
pub const FRAME_MOST: usize = 9000;

// Bytes of a frame header.
pub const FRAME_HEADER: usize = 10;

// Bytes of a message header.
pub const MESSAGE_HEADER: usize = 24;

// Where in a message header the length of its data stands.
pub const LENGTH_AT: usize = 20;

// Where in a message header the trailing byte stands, which says whether another message follows.
pub const TRAILING_AT: usize = 23;

// The header of a frame, as it stands on the wire.
#[derive(Clone, Copy, Debug, PartialEq, Eq, Hash)]
pub struct FrameHeader {
    pub destination: u16,
    pub source: u16,
    pub number: FrameNo,
    pub ackstart: FrameNo,
    pub ackcount: u8,
    pub flags: u8,
}

// From one place where a message header may stand to the next.
const HEADER_STEP: usize = 8;

// Message headers stand at offsets of the form 10 + 8k: the first of these that is not before end. 0 where no word
// holds it: so says the definition, and no frame comes near such an end.
pub fn next_header(end: usize) -> usize
    ensures { result ≡ header_after end }
{
    end.saturating_sub(FRAME_HEADER)
        .next_multiple_of(HEADER_STEP)
        .checked_add(FRAME_HEADER)
        .unwrap_or(0)
}

// The header of a message: its transaction's number, where its completion goes and what that writes, how many data
// messages it has, and the address of this one's data. The data's length is that of a slice beside it.
#[derive(Clone, Copy, Debug, PartialEq, Eq, Hash)]
pub struct MessageHeader {
    pub trans: TransNo,
    pub completion_address: u32,
    pub completion_value: u32,
    pub count: u16,
    pub data_address: u32,
}

// The messages that a transaction takes: one bare one for count 0.
#[tactic(auto, using(std::proofs::lemmas::Bool::Decides::nat_tests), unfolding(crate::specs::Format::needed))]
pub fn messages_needed(count: u16) -> u16
    ensures { result ≡ needed count }
{
    count.max(1)
}
