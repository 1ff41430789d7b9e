// The replay from fragments for C, behind the functions of include/logwhisker.h: numbers, slices and references to
// arrays only. Assumes of a caller that pointers and lengths are right. It promises what replay_feed does, with what
// is said of a line as a number and words (specs/Replies.antt).
ghost use Rattle.std.specs.Prelude.{◌≡◌, [], ◌∷◌, replicate, Ok};
ghost use Rattle.replay_text.specs.Feeding.{feed as feed_of, close as close_of, LeftIfClosed};
ghost use Rattle.replay_feed.specs.State.{replaying_of, OpensReplay};
ghost use Rattle.capi.specs.Replies.{reply_number, reply_words, totals_unless_refused};

use logwhisker::Answer;

// Opens a replay.
#[unsafe(no_mangle)]
pub extern "C" fn lw_raw_replay_open(
    place: &mut [u64; 9],
    words: &mut [u64; 67],
    memory: &mut [u8; 4096],
)
    ensures memory_after { memory.new ≡ replicate 4096 0 }
    ensures opens_replay { OpensReplay place.new words.new memory.new }
{
    logwhisker::open_replay(place, words, memory);
}

// 1 where a line is answered, whose words are written, and 0 where none is.
fn put_line(answer: &mut [u64; 8], line: Option<Answer>) -> u32
    ensures value { result ≡ reply_number (Ok line) }
    ensures answer_after { answer.new ≡ reply_words (Ok line) answer.old }
{
    match line {
        Some(a) => {
            logwhisker::put_answer(answer, a);
            1
        }
        None => 0,
    }
}

// Feeds a fragment: 1 and the answer of the line that ended, 0 where none did, or 17; and how many bytes were taken.
#[unsafe(no_mangle)]
pub extern "C" fn lw_raw_replay_feed(
    place: &mut [u64; 9],
    words: &mut [u64; 67],
    frame: &mut [u8; 9000],
    memory: &mut [u8; 4096],
    fragment: &[u8],
    taken: &mut usize,
    answer: &mut [u64; 8],
) -> u32
    ensures value { result ≡ reply_number (feed_of
        (replaying_of place.old words.old frame.old memory.old)
        fragment.now).reply }
    ensures memory_after { replaying_of place.new words.new frame.new memory.new
        ≡ (feed_of
        (replaying_of place.old words.old frame.old memory.old)
        fragment.now).state }
    ensures taken_after { taken.new
        ≡ (feed_of
        (replaying_of place.old words.old frame.old memory.old)
        fragment.now).taken }
    ensures answer_after { answer.new
        ≡ reply_words (feed_of
        (replaying_of place.old words.old frame.old memory.old)
        fragment.now).reply answer.old }
    ensures left_if_closed { LeftIfClosed (feed_of
        (replaying_of place.old words.old frame.old memory.old)
        fragment.now).reply
        (place.old ∷ words.old ∷ frame.old ∷ memory.old ∷ [])
        (place.new ∷ words.new ∷ frame.new ∷ memory.new ∷ []) }
{
    match logwhisker::feed_replay(place, words, frame, memory, fragment) {
        Ok(fed) => {
            *taken = fed.taken;
            put_line(answer, fed.answer)
        }
        Err(reason) => {
            *taken = 0;
            reason.number().into()
        }
    }
}

// Closes a replay: 1 and the answer of a last line, 0 where there is none, and the totals; or 17.
#[unsafe(no_mangle)]
pub extern "C" fn lw_raw_replay_close(
    place: &mut [u64; 9],
    words: &mut [u64; 67],
    frame: &[u8; 9000],
    memory: &mut [u8; 4096],
    answer: &mut [u64; 8],
    totals: &mut [u64; 3],
) -> u32
    ensures value { result ≡ reply_number (close_of
        (replaying_of place.old words.old frame.now memory.old)).reply }
    ensures memory_after { replaying_of place.new words.new frame.now memory.new
        ≡ (close_of
        (replaying_of place.old words.old frame.now memory.old)).state }
    ensures answer_after { answer.new
        ≡ reply_words (close_of
        (replaying_of place.old words.old frame.now memory.old)).reply
        answer.old }
    ensures totals_after { totals.new
        ≡ totals_unless_refused (close_of
        (replaying_of place.old words.old frame.now memory.old))
        totals.old }
    ensures left_if_closed { LeftIfClosed (close_of
        (replaying_of place.old words.old frame.now memory.old)).reply
        (place.old ∷ words.old ∷ memory.old ∷ [])
        (place.new ∷ words.new ∷ memory.new ∷ []) }
{
    match logwhisker::close_replay(place, words, frame, memory) {
        Ok(closed) => {
            let t = closed.totals;
            *totals = [t.messages, t.bytes, t.completed];
            put_line(answer, closed.answer)
        }
        Err(reason) => reason.number().into(),
    }
}
