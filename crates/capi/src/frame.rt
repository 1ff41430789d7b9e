// What a C program is offered: reading a frame's layout, asking a refusal's class, and counting marks. Assumes of a
// caller that a slice's pointer and length are right (include/logwhisker.h). It promises one number a call, over any
// bytes, as specs/Numbers.antt, wire_read/specs/Layout.antt and wire/specs/Reading.antt say.
ghost use Rattle.std.specs.Prelude.{◌≡◌};
ghost use Rattle.bitmap.specs.Marks.{trailing_ones};
ghost use Rattle.refusal.specs.Class.{class_of, class_number};
ghost use Rattle.wire.specs.Reading.{refusal_of};
ghost use Rattle.wire_read.specs.Layout.{messages_of, bytes_of};
ghost use Rattle.capi.specs.Numbers.{layout_in, header_in};

use bitmap::Bitmap;
use seq::FrameNo;
use wire::FrameHeader;
use wire_read::layout;

// 0 where the layout can be read, else the refusal: 1, 2, 4 or 5.
#[unsafe(no_mangle)]
pub extern "C" fn lw_layout_refusal(frame: &[u8]) -> u32
    ensures { result ≡ refusal_of (layout_in frame.now) }
{
    u32::from(refusal::refusal_number(&layout::layout_of(frame)))
}

// How many messages the frame has; 0 where the layout is refused.
#[unsafe(no_mangle)]
pub extern "C" fn lw_message_count(frame: &[u8]) -> u32
    ensures { result ≡ messages_of (layout_in frame.now) }
{
    layout::layout_of(frame).map_or(0, |read| read.messages)
}

// How many data bytes its messages carry; 0 where the layout is refused.
#[unsafe(no_mangle)]
pub extern "C" fn lw_data_bytes(frame: &[u8]) -> u32
    ensures { result ≡ bytes_of (layout_in frame.now) }
{
    layout::layout_of(frame).map_or(0, |read| read.data_bytes)
}

// The frame header, as it stands on the wire; zeros where the layout is refused. Each call below gives a field of it.
fn header_in(frame: &[u8]) -> FrameHeader
    ensures { result ≡ header_in frame.now }
{
    match layout::layout_of(frame) {
        Ok(_) => wire_read::frame_header(frame),
        Err(_) => FrameHeader {
            destination: 0,
            source: 0,
            number: FrameNo(0),
            ackstart: FrameNo(0),
            ackcount: 0,
            flags: 0,
        },
    }
}

#[unsafe(no_mangle)]
pub extern "C" fn lw_destination(frame: &[u8]) -> u32
    ensures { result ≡ (header_in frame.now).destination }
{
    u32::from(header_in(frame).destination)
}

#[unsafe(no_mangle)]
pub extern "C" fn lw_source(frame: &[u8]) -> u32
    ensures { result ≡ (header_in frame.now).source }
{
    u32::from(header_in(frame).source)
}

#[unsafe(no_mangle)]
pub extern "C" fn lw_frame_number(frame: &[u8]) -> u32
    ensures { result ≡ (header_in frame.now).number.0 }
{
    u32::from(header_in(frame).number.0)
}

#[unsafe(no_mangle)]
pub extern "C" fn lw_ack_start(frame: &[u8]) -> u32
    ensures { result ≡ (header_in frame.now).ackstart.0 }
{
    u32::from(header_in(frame).ackstart.0)
}

#[unsafe(no_mangle)]
pub extern "C" fn lw_ack_count(frame: &[u8]) -> u32
    ensures { result ≡ (header_in frame.now).ackcount }
{
    u32::from(header_in(frame).ackcount)
}

#[unsafe(no_mangle)]
pub extern "C" fn lw_flags(frame: &[u8]) -> u32
    ensures { result ≡ (header_in frame.now).flags }
{
    u32::from(header_in(frame).flags)
}

// The class of a refusal number: 0 none, 1 wire, 2 message, 3 caller, 4 card.
#[unsafe(no_mangle)]
pub extern "C" fn lw_refusal_class(refusal: u32) -> u32
    ensures { result ≡ class_number (class_of refusal) }
{
    u32::from(refusal::class_of(refusal))
}

// How many of 64 marks are set below the lowest clear one; 64 without a clear one.
#[unsafe(no_mangle)]
pub extern "C" fn lw_trailing_ones(marks: u64) -> u32
    ensures { result ≡ trailing_ones 64 marks }
{
    marks.run_length()
}
