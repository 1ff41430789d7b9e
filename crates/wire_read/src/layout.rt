// Reading a frame's layout: its heading, and the frame as a whole. Assumes nothing: any bytes get an answer. It
// promises what wire/specs/Reading.antt and specs/Layout.antt say.
ghost use Rattle.std.specs.Prelude.{◌≡◌, true, ◌≤◌, length, IfOk};
ghost use Rattle.refusal.specs.Reason.{refusal_number};
ghost use Rattle.wire.specs.Reading.{
  flags,
  addressed,
  heading_of,
  read_frame,
  refusal_of,
  or_passes_end,
  messages_from,
};
ghost use Rattle.wire_read.specs.Layout.{layout_of};

use refusal::Reason;

// A frame as a whole: its messages and their data bytes.
#[derive(Clone, Copy, Debug, PartialEq, Eq, Hash)]
pub struct Layout {
    pub messages: u32,
    pub data_bytes: u32,
}

// ---- the heading: refusals 1 to 4, which the frame's length and header decide

// The flags of a frame; 0 where it is too short to have any.
#[tactic(auto, unfolding(crate::specs::Finding::header_of))]
pub(crate) fn flags_of(f: &[u8]) -> u8
    ensures { result ≡ flags f.now }
{
    crate::frame_header(f).flags
}

// Whether the frame goes to own and comes from peer.
pub(crate) fn is_addressed(f: &[u8], own: u16, peer: u16) -> bool
    ensures { result ≡ addressed own peer f.now }
{
    let head = crate::frame_header(f);
    head.destination == own && head.source == peer
}

// Refused where the two IDs are not the expected ones, among other reasons.
#[tactic(auto, using(std::proofs::lemmas::Bool::Decides::nat_tests), unfolding(wire::specs::Reading::heading_of))]
fn check_heading_where(f: &[u8], ids: bool) -> Result<(), Reason>
    ensures { refusal_number result ≡ heading_of ids f.now }
{
    if f.len() < wire::FRAME_HEADER {
        return Err(Reason::FrameTooShort);
    }
    if wire::FRAME_MOST < f.len() {
        return Err(Reason::FrameTooLong);
    }
    if !ids {
        return Err(Reason::WrongId);
    }
    if 1 < flags_of(f) {
        return Err(Reason::ReservedFlag);
    }
    Ok(())
}

// Refuses for the first of 1 to 4 a frame that has come to own and should be from peer. Where none applies, only its
// messages are left to read. A frame without a whole header is refused before its IDs are looked for.
#[tactic(auto, using(std::proofs::lemmas::Bool::Decides::nat_tests), unfolding(wire::specs::Reading::heading_of))]
pub fn check_heading(f: &[u8], own: u16, peer: u16) -> Result<(), Reason>
    ensures { refusal_number result ≡ heading_of (addressed own peer f.now) f.now }
{
    let least = wire::FRAME_HEADER;
    if f.len() < least {
        return Err(Reason::FrameTooShort);
    }
    check_heading_where(f, is_addressed(f, own, peer))
}

// ---- the whole frame

// The messages of a frame whose flag says that there are some.
fn walk(f: &[u8]) -> Result<Layout, Reason>
    requires { length f.now ≤ 9000 }
    ensures refused { refusal_number result ≡ refusal_of (or_passes_end (messages_from (length f.now) f.now 10)) }
    ensures laid_out { IfOk result (λ l. l ≡ layout_of (or_passes_end (messages_from (length f.now) f.now 10))) }
{
    let mut at = wire::FRAME_HEADER;
    let mut messages: u32 = 0;
    let mut data_bytes: u32 = 0;
    loop {
        let found = crate::message_at(f, at).ok_or(Reason::PastFrameEnd)?;
        messages += 1;
        data_bytes += found.len as u32;
        if !found.more {
            return Ok(Layout {
                messages,
                data_bytes,
            });
        }
        at = found.next;
    }
}

// The layout where the two IDs are the expected ones or not.
fn layout_where(f: &[u8], ids: bool) -> Result<Layout, Reason>
    ensures refused { refusal_number result ≡ refusal_of (read_frame ids f.now) }
    ensures laid_out { IfOk result (λ l. l ≡ layout_of (read_frame ids f.now)) }
{
    check_heading_where(f, ids)?;
    if flags_of(f) == 0 {
        return Ok(Layout {
            messages: 0,
            data_bytes: 0,
        });
    }
    walk(f)
}

// A frame's layout, whoever it goes to.
pub fn layout_of(f: &[u8]) -> Result<Layout, Reason>
    ensures refused { refusal_number result ≡ refusal_of (read_frame true f.now) }
    ensures laid_out { IfOk result (λ l. l ≡ layout_of (read_frame true f.now)) }
{
    layout_where(f, true)
}

// Refuses for the first of 1 to 5 a frame that has come to own and should be from peer.
pub fn check(f: &[u8], own: u16, peer: u16) -> Result<(), Reason>
    ensures { refusal_number result ≡ refusal_of (read_frame (addressed own peer f.now) f.now) }
{
    layout_where(f, is_addressed(f, own, peer))?;
    Ok(())
}
