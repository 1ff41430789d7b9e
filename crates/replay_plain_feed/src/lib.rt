// The replay of a text that comes in fragments, with the plain host in the place of the first one: opening, feeding and
// closing, in place over what a caller lends, but for the pair, which goes in and out by value. Assumes nothing: any
// words and any pair are a state. It promises the calls that replay_feed promises (replay_text/specs/Feeding.antt) on
// the state that is lent (specs/State.antt), so the two can't be told apart.
#![tactic(auto)]

ghost use Rattle.std.specs.Prelude.{◌≡◌, [], ◌∷◌, replicate};
ghost use Rattle.host_equal.specs.Described.{pair_of_plain};
ghost use Rattle.replay_text.specs.Report.{answered_line};
ghost use Rattle.replay_text.specs.Feeding.{feed as feed_of, close as close_of, LeftIfClosed};
ghost use Rattle.replay_text.specs.Place.{fed_of, closed_of, counted, Answers};
ghost use Rattle.replay_plain_feed.specs.State.{replaying_of, OpensReplay};

use hexadecimal::line::Line;
use host::{Answer, Refusal};
use host_plain::{PlainPair, PlainStepped};
use refusal::Reason;
use replay_text::place::{Closed, Fed};
use replay_text::{line, place};

// What feeding answers, and the pair then: a refused call hands back the pair too.
#[derive(Clone, Copy, Debug, PartialEq, Eq, Hash)]
pub struct PlainFed {
    pub pair: PlainPair,
    pub fed: Result<Fed, Reason>,
}

// What closing answers, and the pair then: a refused call hands back the pair too.
#[derive(Clone, Copy, Debug, PartialEq, Eq, Hash)]
pub struct PlainClosed {
    pub pair: PlainPair,
    pub closed: Result<Closed, Reason>,
}

// Opens a replay, and hands back its pair: the host has ID 1 and the peer 2. The memory is all zero.
pub fn open(place: &mut [u64; 9], memory: &mut [u8; 4096]) -> PlainPair
    ensures memory_after { memory.new ≡ replicate 4096 0 }
    ensures opens_replay { OpensReplay place.new result memory.new }
{
    *place = [0; 9];
    *memory = [0; 4096];
    host_plain::open_pair(place::OWN, place::PEER).pair
}

// Answers a line that has ended, its bytes at the start of frame.
fn answer_line(pair: PlainPair, line: Line, frame: &[u8], memory: &mut [u8]) -> PlainStepped
    ensures answer_value { result.answer
        ≡ (answered_line (pair_of_plain pair) line frame.now memory.old).answer }
    ensures pair_value { pair_of_plain result.pair
        ≡ (answered_line (pair_of_plain pair) line frame.now memory.old).pair }
    ensures memory_after { memory.new
        ≡ (answered_line (pair_of_plain pair) line frame.now memory.old).memory }
{
    match line::check_line(line) {
        Ok(_) => host_plain::receive(pair, octets::front(frame, line.len), memory),
        Err(reason) => {
            let answer = Answer::Refused(Refusal {
                number: reason.number(),
                place: 0,
            });
            PlainStepped { pair, answer }
        }
    }
}

// Answers the line being read, which has ended, and counts the answer.
fn end_line(
    place: &mut [u64; 9],
    pair: PlainPair,
    frame: &[u8],
    memory: &mut [u8; 4096],
) -> PlainStepped
    ensures answers { Answers place.old (pair_of_plain pair) frame.now memory.old
        result.answer (pair_of_plain result.pair) memory.new }
    ensures place_after { place.new ≡ counted place.old result.answer }
{
    let line = place::line_in(place);
    let stepped = answer_line(pair, line, frame, memory);
    place::count_answer(place, stepped.answer);
    stepped
}

// Feeds a fragment. Where it has a newline, the line up to there is answered, and what follows is for the next call;
// where it has none, or LINES_MOST lines are answered, it is used up and no line is answered. Once closed, the replay
// uses up nothing and refuses with 17.
pub fn feed(
    place: &mut [u64; 9],
    pair: PlainPair,
    frame: &mut [u8; 9000],
    memory: &mut [u8; 4096],
    fragment: &[u8],
) -> PlainFed
    ensures fed_value { result.fed
        ≡ fed_of (feed_of
        (replaying_of place.old pair frame.old memory.old)
        fragment.now) }
    ensures memory_after { replaying_of place.new result.pair frame.new memory.new
        ≡ (feed_of
        (replaying_of place.old pair frame.old memory.old)
        fragment.now).state }
    ensures left_if_closed { LeftIfClosed result.fed
        (place.old ∷ frame.old ∷ memory.old ∷ [])
        (place.new ∷ frame.new ∷ memory.new ∷ []) }
    ensures left_if_closed_2 { LeftIfClosed result.fed pair result.pair }
{
    match place::take_in(place, frame, fragment) {
        Err(reason) => {
            let fed = Err(reason);
            PlainFed { pair, fed }
        }
        Ok(got) if got.ended => {
            let stepped = end_line(place, pair, frame, memory);
            let fed = Ok(Fed {
                answer: Some(stepped.answer),
                taken: got.taken,
            });
            let after = stepped.pair;
            PlainFed { pair: after, fed }
        }
        Ok(got) => {
            let fed = Ok(Fed {
                answer: None,
                taken: got.taken,
            });
            PlainFed { pair, fed }
        }
    }
}

// Answers a last line, if it has a character and LINES_MOST are not answered yet, and the totals. Once closed, it is
// refused with 17.
pub fn close(
    place: &mut [u64; 9],
    pair: PlainPair,
    frame: &[u8; 9000],
    memory: &mut [u8; 4096],
) -> PlainClosed
    ensures closed_value { result.closed
        ≡ closed_of (close_of
        (replaying_of place.old pair frame.now memory.old)) }
    ensures memory_after { replaying_of place.new result.pair frame.now memory.new
        ≡ (close_of
        (replaying_of place.old pair frame.now memory.old)).state }
    ensures left_if_closed { LeftIfClosed result.closed
        (place.old ∷ memory.old ∷ [])
        (place.new ∷ memory.new ∷ []) }
    ensures left_if_closed_2 { LeftIfClosed result.closed pair result.pair }
{
    if place::has_last(place) {
        let stepped = end_line(place, pair, frame, memory);
        let answer = Some(stepped.answer);
        let closed = place::close(place).map(|totals| Closed { answer, totals });
        let last = stepped.pair;
        return PlainClosed { pair: last, closed };
    }
    let end = place::close(place);
    let answer = None;
    let closed = end.map(|totals| Closed { answer, totals });
    PlainClosed { pair, closed }
}
