// The place that a replay from fragments has reached, in nine words that a caller lends, and what a call does with it
// before and after a host is asked: whichever host that is. Assumes nothing: any words are a place. It promises what
// specs/Place.antt says; proofs/place/Steps.antt shows that it comes to the calls of replay_text/specs/Feeding.antt.
ghost use Rattle.std.specs.Prelude.{◌≡◌, nat_le, slice_index};
ghost use Rattle.replay_text.specs.Place.{
  is_set,
  opened,
  line_of,
  place_words,
  place_of,
  taking_of,
  place_taken,
  frame_taken,
  counted,
  last_in,
  closing_of,
  place_closed,
};

use crate::line::Totals;
use hexadecimal::feed;
use hexadecimal::line::Line;
use host::Answer;
use refusal::Reason;

// The host's own ID.
pub const OWN: u16 = 1;

// The ID of the card that it receives from.
pub const PEER: u16 = 2;

// Lines that are answered.
pub const LINES_MOST: u64 = 1000000;

// What a fragment brought: how many bytes were taken, and whether a line ended, which a host has to answer.
#[derive(Clone, Copy, Debug, PartialEq, Eq, Hash)]
pub struct Taking {
    pub taken: usize,
    pub ended: bool,
}

// What feeding answers: the answer of a line, if one ended, and how many bytes were taken.
#[derive(Clone, Copy, Debug, PartialEq, Eq, Hash)]
pub struct Fed {
    pub answer: Option<Answer>,
    pub taken: usize,
}

// What closing answers: the answer of a last line, if there is one, and the totals.
#[derive(Clone, Copy, Debug, PartialEq, Eq, Hash)]
pub struct Closed {
    pub answer: Option<Answer>,
    pub totals: Totals,
}

// What the nine words say: the totals so far, the count of answered lines, a word that is not 0 once the replay is
// closed, and the line being read.
#[derive(Clone, Copy, Debug, PartialEq, Eq, Hash)]
struct Place {
    totals: Totals,
    lines: u64,
    closed: u64,
    line: Line,
}

impl Place {
    // The place that words say; any words do.
    fn of(words: &[u64; 9]) -> Place
        ensures { result ≡ place_of words.now }
    {
        let [
            messages,
            bytes,
            completed,
            lines,
            closed,
            len,
            half,
            odd,
            bad,
        ] = *words;
        Place {
            totals: Totals {
                messages,
                bytes,
                completed,
            },
            lines,
            closed,
            line: Line {
                len: len as usize,
                half: (half % 16) as u8,
                odd: odd != 0,
                bad: bad != 0,
            },
        }
    }

    // Its words.
    fn words(self) -> [u64; 9]
        ensures { result ≡ place_words self.totals self.lines self.closed self.line }
    {
        [
            self.totals.messages,
            self.totals.bytes,
            self.totals.completed,
            self.lines,
            self.closed,
            self.line.len as u64,
            self.line.half.into(),
            self.line.odd.into(),
            self.line.bad.into(),
        ]
    }

    // Whether the replay is closed.
    fn is_closed(self) -> bool
        ensures { result ≡ is_set self.closed }
    {
        self.closed != 0
    }

    // The refusal of every call once the replay is closed.
    fn check_open(self) -> Result<(), Reason>
        ensures { result ≡ opened self.closed }
    {
        if self.is_closed() {
            return Err(Reason::ReplayClosed);
        }
        Ok(())
    }

    // Whether LINES_MOST lines are answered.
    fn is_full(self) -> bool
        ensures { result ≡ nat_le 1000000 self.lines }
    {
        LINES_MOST <= self.lines
    }
}

// The line being read.
pub fn line_in(place: &[u64; 9]) -> Line
    ensures { result ≡ line_of place.now }
{
    Place::of(place).line
}

// Takes in a fragment up to its first newline; the bytes that its digits spell go into frame. Where LINES_MOST lines
// are answered it is used up and not looked at. Once closed, the replay uses up nothing and refuses.
#[tactic(auto, unfolding(crate::specs::Place::taking_of, crate::specs::Place::place_taken, crate::specs::Place::frame_taken, crate::specs::Place::noted))]
pub fn take_in(place: &mut [u64; 9], frame: &mut [u8], fragment: &[u8]) -> Result<Taking, Reason>
    ensures value { result ≡ taking_of place.old frame.old fragment.now }
    ensures place_after { place.new
        ≡ place_taken place.old frame.old fragment.now }
    ensures frame_after { frame.new
        ≡ frame_taken place.old frame.old fragment.now }
{
    let now = Place::of(place);
    now.check_open()?;
    if now.is_full() {
        return Ok(Taking {
            taken: fragment.len(),
            ended: false,
        });
    }
    let got = feed::take_in(now.line, frame, fragment, 0);
    *place = Place {
        line: got.line,
        ..now
    }
    .words();
    Ok(Taking {
        taken: got.at,
        ended: got.ended,
    })
}

// Counts the answer of the line that has ended. The next line has no character yet.
#[tactic(auto, unfolding(crate::specs::Place::counted))]
pub fn count_answer(place: &mut [u64; 9], answer: Answer)
    ensures { place.new ≡ counted place.old answer }
{
    let now = Place::of(place);
    *place = Place {
        totals: now.totals.with(answer),
        lines: now.lines.wrapping_add(1),
        closed: now.closed,
        line: Line::start(),
    }
    .words();
}

// Whether LINES_MOST lines are answered, so that nothing more is looked at.
pub fn is_full(place: &[u64; 9]) -> bool
    ensures { result ≡ nat_le 1000000 (slice_index place.now 3) }
{
    Place::of(place).is_full()
}

// Whether closing has a last line to answer: one with a character, where the replay is open and not full.
#[tactic(auto, unfolding(crate::specs::Place::last_in))]
pub fn has_last(place: &[u64; 9]) -> bool
    ensures { result ≡ last_in place.now }
{
    let now = Place::of(place);
    !now.is_closed() && !now.is_full() && !now.line.is_empty()
}

// Closes a replay that has no last line, or whose last line is answered: the totals. Once closed, it is refused.
#[tactic(auto, unfolding(crate::specs::Place::closing_of, crate::specs::Place::place_closed))]
pub fn close(place: &mut [u64; 9]) -> Result<Totals, Reason>
    ensures value { result ≡ closing_of place.old }
    ensures place_after { place.new ≡ place_closed place.old }
{
    let now = Place::of(place);
    now.check_open()?;
    *place = Place { closed: 1, ..now }.words();
    Ok(now.totals)
}
