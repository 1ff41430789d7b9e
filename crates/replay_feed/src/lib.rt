// The replay of a text that comes in fragments, cut anywhere: opening, feeding and closing, in place over what a
// caller lends. Assumes nothing: any words are a state, and any characters get an answer. It promises the calls of
// replay_text/specs/Feeding.antt on the state that is lent (specs/State.antt), of which
// replay_text/proofs/Fragments.antt shows that any way to cut a text gives the answers of the whole text.
#![tactic(auto)]

ghost use Rattle.std.specs.Prelude.{◌≡◌, [], ◌∷◌, replicate};
ghost use Rattle.host_words.specs.Words.{pair_of};
ghost use Rattle.replay_text.specs.Report.{answered_line};
ghost use Rattle.replay_text.specs.Feeding.{feed as feed_of, close as close_of, LeftIfClosed};
ghost use Rattle.replay_text.specs.Place.{fed_of, closed_of, counted, Answers};
ghost use Rattle.replay_feed.specs.State.{replaying_of, OpensReplay};

use hexadecimal::line::Line;
use host::{Answer, Refusal};
use host_words::opening;
use refusal::Reason;
use replay_text::place::{Closed, Fed};
use replay_text::{line, place};

// Opens a replay: its host has ID 1 and the peer 2, and the memory is all zero.
pub fn open(place: &mut [u64; 9], words: &mut [u64; 67], memory: &mut [u8; 4096])
    ensures memory_after { memory.new ≡ replicate 4096 0 }
    ensures opens_replay { OpensReplay place.new words.new memory.new }
{
    *place = [0u64; 9];
    *memory = [0u8; 4096];
    let _ = opening::open_in_place(words, place::OWN, place::PEER);
}

// Answers a line that has ended, its bytes at the start of frame; the host is in words.
fn answer_line(words: &mut [u64; 67], line: Line, frame: &[u8], memory: &mut [u8]) -> Answer
    ensures value { result
        ≡ (answered_line (pair_of words.old) line frame.now memory.old).answer }
    ensures words_after { pair_of words.new
        ≡ (answered_line (pair_of words.old) line frame.now memory.old).pair }
    ensures memory_after { memory.new
        ≡ (answered_line (pair_of words.old) line frame.now memory.old).memory }
{
    match line::check_line(line) {
        Ok(_) => host_receive::receive_in_place(words, octets::front(frame, line.len), memory),
        Err(reason) => Answer::Refused(Refusal {
            number: reason.number(),
            place: 0,
        }),
    }
}

// Answers the line being read, which has ended, and counts the answer.
fn end_line(
    place: &mut [u64; 9],
    words: &mut [u64; 67],
    frame: &[u8],
    memory: &mut [u8; 4096],
) -> Answer
    ensures answers { Answers place.old (pair_of words.old) frame.now
        memory.old result (pair_of words.new) memory.new }
    ensures place_after { place.new ≡ counted place.old result }
{
    let line = place::line_in(place);
    let answer = answer_line(words, line, frame, memory);
    place::count_answer(place, answer);
    answer
}

// Feeds a fragment. Where it has a newline, the line up to there is answered, and what follows is for the next call;
// where it has none, or LINES_MOST lines are answered, it is used up and no line is answered. Once closed, the replay
// uses up nothing and refuses with 17. The four lent parts come one by one, since C lends them so.
pub fn feed(
    place: &mut [u64; 9],
    words: &mut [u64; 67],
    frame: &mut [u8; 9000],
    memory: &mut [u8; 4096],
    fragment: &[u8],
) -> Result<Fed, Reason>
    ensures value { result
        ≡ fed_of (feed_of
        (replaying_of place.old words.old frame.old memory.old)
        fragment.now) }
    ensures memory_after { replaying_of place.new words.new frame.new memory.new
        ≡ (feed_of
        (replaying_of place.old words.old frame.old memory.old)
        fragment.now).state }
    ensures left_if_closed { LeftIfClosed result
        (place.old ∷ words.old ∷ frame.old ∷ memory.old ∷ [])
        (place.new ∷ words.new ∷ frame.new ∷ memory.new ∷ []) }
{
    let got = place::take_in(place, frame, fragment)?;
    let taken = got.taken;
    if got.ended {
        let answer = Some(end_line(place, words, frame, memory));
        return Ok(Fed { answer, taken });
    }
    let answer = None;
    Ok(Fed { answer, taken })
}

// Answers a last line, if it has a character and LINES_MOST are not answered yet, and the totals. Once closed, it is
// refused with 17.
pub fn close(
    place: &mut [u64; 9],
    words: &mut [u64; 67],
    frame: &[u8; 9000],
    memory: &mut [u8; 4096],
) -> Result<Closed, Reason>
    ensures value { result
        ≡ closed_of (close_of
        (replaying_of place.old words.old frame.now memory.old)) }
    ensures memory_after { replaying_of place.new words.new frame.now memory.new
        ≡ (close_of
        (replaying_of place.old words.old frame.now memory.old)).state }
    ensures left_if_closed { LeftIfClosed result
        (place.old ∷ words.old ∷ memory.old ∷ [])
        (place.new ∷ words.new ∷ memory.new ∷ []) }
{
    if place::has_last(place) {
        let answer = Some(end_line(place, words, frame, memory));
        let totals = place::close(place)?;
        return Ok(Closed { answer, totals });
    }
    let totals = place::close(place)?;
    let answer = None;
    Ok(Closed { answer, totals })
}
