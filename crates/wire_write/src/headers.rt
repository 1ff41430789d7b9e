// Headers as bytes, and the acknowledgement frame, which is a frame header alone. Assumes nothing. It promises every
// byte, as wire/specs/Writing.antt says.
ghost use Rattle.std.specs.Prelude.{◌≡◌};
ghost use Rattle.wire.specs.Format.{carrying};
ghost use Rattle.wire.specs.Writing.{frame_head, message_head, ack_frame};

use seq::FrameNo;
use wire::{FRAME_HEADER, LENGTH_AT, MESSAGE_HEADER, MessageHeader, TRAILING_AT};

// What stands in a byte of a field that has no use.
const UNUSED: u8 = 0;

// A frame header as its 10 bytes.
pub(crate) fn frame_head(
    to: u16,
    from: u16,
    number: FrameNo,
    start: FrameNo,
    count: u8,
    flags: u8,
) -> [u8; FRAME_HEADER]
    ensures { result ≡ frame_head to from number.0 start.0 count flags }
{
    let mut head = [0; FRAME_HEADER];
    head[..2].copy_from_slice(&to.to_le_bytes());
    head[2..4].copy_from_slice(&from.to_le_bytes());
    head[4..6].copy_from_slice(&number.0.to_le_bytes());
    head[6..8].copy_from_slice(&start.0.to_le_bytes());
    head[8] = count;
    head[9] = flags;
    head
}

// An acknowledgement of count numbers from start on, from an end whose next message frame will have this number: the
// number is not used up.
pub fn ack_frame(
    to: u16,
    from: u16,
    number: FrameNo,
    start: FrameNo,
    count: u8,
) -> [u8; FRAME_HEADER]
    ensures { result ≡ ack_frame to from number.0 start.0 count }
{
    if count == 0 {
        return frame_head(to, from, number, FrameNo(0), count, 0);
    }
    frame_head(to, from, number, start, count, 0)
}

// The header of a frame's last message, as its 24 bytes. Its length field has the length of the data modulo 65,536.
pub(crate) fn message_head(h: MessageHeader, payload: &[u8]) -> [u8; MESSAGE_HEADER]
    ensures { result ≡ message_head (carrying h payload.now) 0 }
{
    let mut head = [UNUSED; MESSAGE_HEADER];
    head[..4].copy_from_slice(&h.trans.0.to_le_bytes());
    head[4..8].copy_from_slice(&h.completion_address.to_le_bytes());
    head[8..12].copy_from_slice(&h.completion_value.to_le_bytes());
    head[12..14].copy_from_slice(&h.count.to_le_bytes());
    head[16..20].copy_from_slice(&h.data_address.to_le_bytes());
    head[LENGTH_AT..22].copy_from_slice(&payload.len().to_le_bytes()[..2]);
    head[TRAILING_AT] = 0;
    head
}
