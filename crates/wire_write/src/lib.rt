// Building a frame with messages inside a lent slot, one message a call. Assumes nothing: a message that has no room is
// not written at all. It promises every byte of the slot, as wire/specs/Writing.antt says.
#![tactic(auto)]

pub mod headers;

ghost use Rattle.std.specs.Prelude.{◌≡◌, ◌++◌, ◌+◌, ◌≤◌, ◌<◌, length, set};
ghost use Rattle.std.proofs.lemmas.List.Edits.{sets};
ghost use Rattle.wire.specs.Format.{carrying, next_header};
ghost use Rattle.wire.specs.Writing.{message_head, end_of, room_for, first_message, next_message};

use seq::FrameNo;
use wire::MessageHeader;

// The longest gap before a message header: an empty frame's, which is as long as a frame header.
const GAP_MOST: usize = 10;

// A message at an offset where it lies in the slot: header and data.
fn put_message(slot: &mut [u8], at: usize, h: MessageHeader, payload: &[u8])
    requires { at + 24 + length payload.now ≤ length slot.old }
    ensures { slot.new
        ≡ sets slot.old at (message_head (carrying h payload.now) 0 ++ payload.now) }
{
    let head = headers::message_head(h, payload);
    octets::write(slot, at, &head);
    octets::write(slot, at + wire::MESSAGE_HEADER, payload);
}

// Whether a message whose header stands at an offset lies in the slot, and its frame is no longer than a frame may be.
#[tactic(auto, using(std::proofs::lemmas::Bool::Decides::nat_tests), unfolding(wire::specs::Writing::room_for))]
fn has_room(slot: &[u8], at: usize, payload: &[u8]) -> bool
    requires { at ≤ 9010 }
    ensures { result ≡ room_for slot.now (at + 24 + length payload.now) }
{
    let end = at + wire::MESSAGE_HEADER + payload.len();
    end <= wire::FRAME_MOST && end <= slot.len()
}

// The first message of a frame: the frame header and the message, from the slot's start on. Answers whether there was
// room: a bool, since no value comes with the answer and there is one reason for no.
pub fn write_first(
    slot: &mut [u8],
    to: u16,
    from: u16,
    number: FrameNo,
    h: MessageHeader,
    payload: &[u8],
) -> bool
    ensures value { result ≡ room_for slot.old (end_of 10 (carrying h payload.now)) }
    ensures slot_after { slot.new
        ≡ first_message slot.old to from number.0 (carrying h payload.now) }
{
    if !has_room(slot, wire::FRAME_HEADER, payload) {
        return false;
    }
    let head = headers::frame_head(to, from, number, FrameNo(0), 0, 1);
    octets::write(slot, 0, &head);
    put_message(slot, wire::FRAME_HEADER, h, payload);
    true
}

// One message more behind a frame of used bytes whose last message header stands at last: its trailing byte becomes 1,
// the gap zeros, and the message follows. Answers whether there was room.
pub fn write_next(
    slot: &mut [u8],
    used: usize,
    last: usize,
    h: MessageHeader,
    payload: &[u8],
) -> bool
    ensures value { result ≡ room_for slot.old (end_of (next_header used) (carrying h payload.now)) }
    ensures slot_after { slot.new
        ≡ next_message slot.old used last (carrying h payload.now) }
{
    if wire::FRAME_MOST < used {
        return false;
    }
    let at = header_behind(used);
    if !has_room(slot, at, payload) {
        return false;
    }
    set_follows(slot, last);
    let zeros = [0u8; GAP_MOST];
    octets::write(slot, used, &zeros[..at - used]);
    put_message(slot, at, h, payload);
    true
}

// Where the header of a message behind a frame of used bytes stands.
fn header_behind(used: usize) -> usize
    requires { used ≤ 9000 }
    ensures { (result ≡ next_header used) × (used ≤ result) × (result ≤ used + 10) × (result ≤ 9010) }
{
    wire::next_header(used)
}

// Says in the message header at an offset that another message follows. The sum might not fit, so it is not formed
// before it is known to.
fn set_follows(slot: &mut [u8], last: usize)
    ensures { slot.new ≡ set slot.old (last + 23) 1 }
{
    if slot.len() < wire::MESSAGE_HEADER {
        return;
    }
    if slot.len() - wire::MESSAGE_HEADER < last {
        return;
    }
    slot[last + wire::TRAILING_AT] = 1;
}
