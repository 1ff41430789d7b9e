// Reading a lent frame: its header, and its messages one by one with their data as parts of the frame. Assumes nothing:
// any bytes get an answer. It promises what specs/Finding.antt says, over the format of the crate wire.
#![tactic(auto)]

pub mod layout;

ghost use Rattle.std.specs.Prelude.{◌≡◌, ◌<◌, length, MatchOption};
ghost use Rattle.octets.specs.Octets.{field};
ghost use Rattle.wire.specs.Reading.{data_end};
ghost use Rattle.wire_read.specs.Finding.{header_of, head_at, found_at, Parts, data_at};

use seq::{FrameNo, TransNo};
use wire::{FRAME_HEADER, FrameHeader, MESSAGE_HEADER, MessageHeader};

// The message that stands at an offset: its header, the length of the data behind it, whether another message follows,
// and where that one's header would stand.
#[derive(Clone, Copy, Debug, PartialEq, Eq, Hash)]
pub struct Found {
    pub header: MessageHeader,
    pub len: u16,
    pub more: bool,
    pub next: usize,
}

// The frame header. Bytes past the end of the frame count as 0. Where all of it is there, one test tells, and the
// fields are read without a test of their own.
#[inline(always)]
pub fn frame_header(f: &[u8]) -> FrameHeader
    ensures { result ≡ header_of f.now }
{
    match f.first_chunk::<FRAME_HEADER>() {
        Some(head) => header_fields(head),
        None => short_header(f),
    }
}

// The header of a frame in which some of it is missing.
#[cold]
#[inline(never)]
fn short_header(f: &[u8]) -> FrameHeader
    ensures { result ≡ header_of f.now }
{
    header_fields(f)
}

#[inline(always)]
fn header_fields(f: &[u8]) -> FrameHeader
    ensures { result ≡ header_of f.now }
{
    FrameHeader {
        destination: octets::u16_at(f, 0),
        source: octets::u16_at(f, 2),
        number: FrameNo(octets::u16_at(f, 4)),
        ackstart: FrameNo(octets::u16_at(f, 6)),
        ackcount: byte_or_zero(f, 8),
        flags: byte_or_zero(f, 9),
    }
}

// A byte of the frame, and 0 past its end.
fn byte_or_zero(f: &[u8], at: usize) -> u8
    ensures { result ≡ field f.now at 1 }
{
    f.get(at).copied().unwrap_or(0)
}

// The message whose header stands at an offset; none where its header or its data passes the frame's end.
pub fn message_at(f: &[u8], at: usize) -> Option<Found>
    ensures { result ≡ found_at f.now at }
{
    let (header, data) = parts_at(f, at)?;
    Some(Found {
        header: header_in(header),
        len: octets::u16_at(header, wire::LENGTH_AT),
        more: header[wire::TRAILING_AT] != 0,
        next: wire::next_header(at + MESSAGE_HEADER + data.len()),
    })
}

// The data of the message whose header stands at an offset: the part of the frame past the 24-byte header. No bytes
// where the message passes the frame's end.
pub fn data_at(f: &[u8], at: usize) -> &[u8]
    ensures { result.now ≡ data_at f.now at }
{
    match parts_at(f, at) {
        Some((_, data)) => data,
        None => &[],
    }
}

// The same message as its header's bytes and its data.
fn parts_at(f: &[u8], at: usize) -> Option<(&[u8; MESSAGE_HEADER], &[u8])>
    ensures { MatchOption result (length f.now < data_end f.now at) (λ p. Parts f.now at p.0.now p.1.now) }
{
    let (header, rest) = f.get(at..)?.split_first_chunk::<MESSAGE_HEADER>()?;
    let len = octets::u16_at(header, wire::LENGTH_AT);
    let data = rest.get(..usize::from(len))?;
    Some((header, data))
}

// A message's header from its bytes.
fn header_in(header: &[u8; MESSAGE_HEADER]) -> MessageHeader
    ensures { result ≡ head_at header.now 0 }
{
    MessageHeader {
        trans: TransNo(octets::u32_at(header, 0)),
        completion_address: octets::u32_at(header, 4),
        completion_value: octets::u32_at(header, 8),
        count: octets::u16_at(header, 12),
        data_address: octets::u32_at(header, 16),
    }
}
