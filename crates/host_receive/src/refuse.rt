// The answers to a frame that is not taken in: refused, or answered "again" because of its number. Its layout comes
// first, past a refused message too. Assumes nothing. It promises specs/Refusing.antt.
ghost use Rattle.std.specs.Prelude.{◌≡◌};
ghost use Rattle.host.specs.declared.Answer.TheVariants.{Again};
ghost use Rattle.host.specs.Host.{refused};
ghost use Rattle.host_receive.specs.Counting.{run_at};
ghost use Rattle.host_receive.specs.Refusing.{number_answered};
ghost use Rattle.refusal.specs.Reason.{number};

use crate::run;
use host::{Answer, Refusal};
use refusal::Reason;
use seq::FrameNo;
use wire_read::layout;

// Why a frame is refused, and the index of the message that this is about, or 0.
#[derive(Clone, Copy, Debug, PartialEq, Eq, Hash)]
pub(crate) struct Refused {
    pub(crate) reason: Reason,
    pub(crate) place: u32,
}

// A frame that is refused as a whole.
impl From<Reason> for Refused {
    ghost from_gives = { λ reason r. r ≡ record { reason = reason; place = 0 } };

    fn from(reason: Reason) -> Refused {
        Refused { reason, place: 0 }
    }
}

// Refused, with the number and the place.
pub fn refusing(number: u8, place: u32) -> Answer
    ensures { result ≡ refused number place }
{
    Answer::Refused(Refusal { number, place })
}

// Refuses for a reason, with the place.
pub(crate) fn refuse(stop: Refused) -> Answer
    ensures { result ≡ refused (number stop.reason) stop.place }
{
    refusing(stop.reason.number(), stop.place)
}

// Again, with the run of numbers from its own on.
fn again(number: FrameNo, marks: u64, d: u16) -> Answer
    ensures { result ≡ Again number (run_at marks d) }
{
    Answer::Again(number, run::run_at(marks, d))
}

// The answer to a frame with messages, d past the next one, that is behind, ahead, or in the window and accepted
// already: its layout comes first.
#[tactic(auto, unfolding(crate::specs::Refusing::number_answered))]
pub(crate) fn answer_by_number(
    own: u16,
    peer: u16,
    f: &[u8],
    number: FrameNo,
    marks: u64,
    d: u16,
) -> Answer
    ensures { result ≡ number_answered own peer f.now number.0 marks d }
{
    if let Err(reason) = layout::check(f, own, peer) {
        return refuse(reason.into());
    }
    if 32768 <= d || d < 64 {
        return again(number, marks, d);
    }
    refuse(Reason::FrameAhead.into())
}
