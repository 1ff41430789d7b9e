// Receiving a frame in place: the pair lies in 67 words that the caller lends, and the frame and the memory are lent
// too. Nothing is written before the last message is validated. Assumes nothing. It promises pair, answer and every
// byte of memory as host/specs/Host.antt, receive_of, says of the pair that the words hold (specs/Receiving.antt).
#![tactic(auto)]

pub mod apply;
pub mod by_value;
pub mod message;
pub mod number;
pub mod refuse;
pub mod run;
pub mod validate;
pub mod verdict;

ghost use Rattle.std.specs.Prelude.{◌≡◌};
ghost use Rattle.refusal.specs.Reason.{number};
ghost use Rattle.host_receive.specs.Refusing.{refused_with};
ghost use Rattle.host_receive.specs.Receiving.{Receives, TakesFrame};

use host::Answer;
use refusal::Reason;
use refuse::Refused;
use seq::{FrameNo, Serial};
use wire_read::layout;

// The answer to a frame of which a message is refused: its layout, past that message too, comes first.
#[tactic(auto, unfolding(crate::specs::Refusing::refused_with))]
fn refuse_first(own: u16, peer: u16, f: &[u8], stop: Refused) -> Answer
    ensures { result ≡ refused_with own peer f.now (number stop.reason) stop.place }
{
    match layout::check(f, own, peer) {
        Err(reason) => refuse::refuse(reason.into()),
        Ok(()) => refuse::refuse(stop),
    }
}

// A frame with messages, in the window and not accepted yet: its messages are validated, and where none is refused all
// take effect. The first pass finds a bad layout by itself. What receives a frame answers `Answer`, which has a refusal
// too: as `Result<Answer, Refused>` a frame of 38 bytes took two thirds longer.
fn take_in(words: &mut [u64], f: &[u8], memory: &mut [u8], number: FrameNo) -> Answer
    ensures { TakesFrame words.old f.now memory.old number.0 words.new memory.new result }
{
    let found = match validate::validate(words, f, memory.len()) {
        Ok(found) => found,
        Err(stop) => return refuse_first(host_words::own(words), host_words::peer(words), f, stop),
    };
    apply::apply(words, f, memory, found.sums.messages);
    let run = number::accept(words, number, found.lowest, found.closed);
    Answer::Accepted(number, found.sums, run)
}

// Receives a frame in 67 words. They and the memory change only where the frame is accepted.
pub fn receive_in_place(words: &mut [u64], f: &[u8], memory: &mut [u8]) -> Answer
    ensures { Receives words.old f.now memory.old words.new memory.new result }
{
    if words.len() != host_words::WORDS {
        return refuse::refuse(Reason::OtherLength.into());
    }
    let own = host_words::own(words);
    let peer = host_words::peer(words);
    if let Err(reason) = layout::check_heading(f, own, peer) {
        return refuse::refuse(reason.into());
    }
    let head = wire_read::frame_header(f);
    if head.flags == 0 {
        return Answer::NoMessages;
    }
    let number = head.number;
    let d = number.distance(host_words::next(words));
    let marks = host_words::marks(words);
    if !number::is_new(marks, d) {
        return refuse::answer_by_number(own, peer, f, number, marks, d);
    }
    take_in(words, f, memory, number)
}
