// What the replay says of one line, whichever host answers it: the refusal of a line that is no frame, an answer's
// text, and the totals. Assumes nothing. It promises what specs/Report.antt says.
ghost use Rattle.std.specs.Prelude.{◌≡◌};
ghost use Rattle.refusal.specs.Reason.{refusal_number};
ghost use Rattle.replay_text.specs.AnswerLine.{line_end, with_line};
ghost use Rattle.replay_text.specs.Report.{line_refusal, letter_of, numbers_of, totalled};

use crate::answer;
use hexadecimal::line::Line;
use host::Answer;
use refusal::Reason;

// Sums over accepted frames.
#[derive(Clone, Copy, Debug, PartialEq, Eq, Hash, Default)]
pub struct Totals {
    pub messages: u64,
    pub bytes: u64,
    pub completed: u64,
}

// Whether a line that has ended is one that a host is to be asked about: not where it spells no bytes, nor, of those
// that spell some, where they are more than FRAME_MOST.
#[tactic(auto, unfolding(crate::specs::Report::line_refusal))]
pub fn check_line(line: Line) -> Result<(), Reason>
    ensures { refusal_number result ≡ line_refusal line }
{
    if line.is_refused() {
        return Err(Reason::BadLine);
    }
    if wire::FRAME_MOST < line.len {
        return Err(Reason::FrameTooLong);
    }
    Ok(())
}

// Writes an answer's line into out from at on, and answers the index behind it; where it does not fit, nothing is
// written and the answer is at.
pub fn put_answer(out: &mut [u8], at: usize, answer: Answer) -> usize
    ensures value { result ≡ line_end out.old at (letter_of answer) (numbers_of answer) }
    ensures out_after { out.new ≡ with_line out.old at (letter_of answer) (numbers_of answer) }
{
    match answer {
        Answer::Accepted(n, s, _) => {
            let numbers = [
                n.0.into(),
                s.messages.into(),
                s.bytes.into(),
                s.completed.into(),
            ];
            answer::put_line(out, at, b'A', &numbers)
        }
        Answer::Again(n, _) => answer::put_line(out, at, b'G', &[n.0.into()]),
        Answer::NoMessages => answer::put_line(out, at, b'N', &[]),
        Answer::Refused(r) => answer::put_line(out, at, b'R', &[r.number.into()]),
    }
}

impl Totals {
    // The totals after one more answer.
    pub(crate) fn with(self, answer: Answer) -> Totals
        ensures { result ≡ totalled self answer }
    {
        match answer {
            Answer::Accepted(_, s, _) => Totals {
                messages: self.messages.wrapping_add(s.messages.into()),
                bytes: self.bytes.wrapping_add(s.bytes.into()),
                completed: self.completed.wrapping_add(s.completed.into()),
            },
            Answer::Again(_, _) | Answer::NoMessages | Answer::Refused(_) => self,
        }
    }
}
