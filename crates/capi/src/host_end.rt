// The charging host for C, behind the functions of include/logwhisker.h: numbers, slices and references to arrays only.
// Assumes of a caller that pointers and lengths are right. It promises what the library's face does, with answers as
// words and with what is due written (host_answer/specs/Due.antt).
ghost use Rattle.std.specs.Prelude.{◌≡◌, get_or};
ghost use Rattle.host.specs.Host.{LeavesWords, answer_words, answer_of};
ghost use Rattle.host_answer.specs.Due.{due_number, written_where_due};
ghost use Rattle.host_words.specs.Describing.{description as description_of};
ghost use Rattle.host_words.specs.Words.{pair_of};
ghost use Rattle.logwhisker.specs.Face.{
  host_opened,
  received,
  acknowledgement,
  host_stored,
  buffer_filled,
  host_restored,
};

use logwhisker::{FrameNo, refusal_number};

// Opens a host: 0, or 13 where an ID is 0.
#[unsafe(no_mangle)]
pub extern "C" fn lw_raw_host_open(words: &mut [u64; 67], own: u16, peer: u16) -> u32
    ensures value { result ≡ (host_opened own peer).refusal.number }
    ensures words_after { pair_of words.new ≡ (host_opened own peer).pair }
{
    let opened = logwhisker::open_host(words, own, peer);
    u32::from(refusal_number(&opened))
}

// Receives a frame, and answers the kind of the answer, whose words are written.
#[unsafe(no_mangle)]
pub extern "C" fn lw_raw_host_receive(
    words: &mut [u64; 67],
    frame: &[u8],
    memory: &mut [u8],
    answer: &mut [u64; 8],
) -> u32
    ensures value { result
        ≡ get_or (answer_words (received words.old frame.now memory.old).answer) 0 0 }
    ensures words_after { pair_of words.new
        ≡ (received words.old frame.now memory.old).pair }
    ensures memory_after { memory.new
        ≡ (received words.old frame.now memory.old).memory }
    ensures answer_after { answer.new
        ≡ answer_words (received words.old frame.now memory.old).answer }
    ensures leaves_words { LeavesWords (received words.old frame.now memory.old).answer
        words.old words.new }
{
    let a = logwhisker::receive(words, frame, memory);
    logwhisker::put_answer(answer, a);
    logwhisker::kind_of(a)
}

// Writes the acknowledgement that an answer calls for and answers 1; where it calls for none nothing is written and the
// answer is 0.
#[unsafe(no_mangle)]
pub extern "C" fn lw_raw_host_acknowledge(
    words: &[u64; 67],
    answer: &[u64; 8],
    number: u16,
    frame: &mut [u8; 10],
) -> u32
    ensures value { result
        ≡ due_number (acknowledgement words.now
        (answer_of (get_or answer.now 0 0) (get_or answer.now 1 0) (get_or answer.now 7 0))
        number) }
    ensures frame_after { frame.new
        ≡ written_where_due (acknowledgement words.now
        (answer_of (get_or answer.now 0 0) (get_or answer.now 1 0) (get_or answer.now 7 0))
        number)
        frame.old }
{
    let kind = answer[0];
    let answered = answer[1];
    let run = answer[7];
    let ack = logwhisker::acknowledge_words(words, kind, answered, run, FrameNo(number));
    logwhisker::put_acknowledgement(frame, ack)
}

// Describes a host: IDs, windows, and the open transactions, nearest the lowest first.
#[unsafe(no_mangle)]
pub extern "C" fn lw_raw_host_describe(words: &[u64; 67], description: &mut [u64; 167])
    ensures { description.new ≡ description_of (pair_of words.now) }
{
    *description = logwhisker::describe_host(words);
}

// Stores a host's pair as text: 0 and the text's length, or 13 or 19 and 0.
#[unsafe(no_mangle)]
pub extern "C" fn lw_raw_host_store(words: &[u64; 67], text: &mut [u8], length: &mut usize) -> u32
    ensures value { result ≡ (host_stored words.now text.old).refusal }
    ensures text_after { text.new ≡ buffer_filled words.now text.old }
    ensures length_after { length.new ≡ (host_stored words.now text.old).length }
{
    let stored = logwhisker::store_host(words, text);
    *length = stored.unwrap_or(0);
    u32::from(refusal_number(&stored))
}

// Reads a host's pair back from its text: 0, or 15.
#[unsafe(no_mangle)]
pub extern "C" fn lw_raw_host_restore(words: &mut [u64; 67], text: &[u8]) -> u32
    ensures value { result ≡ (host_restored text.now).refusal.number }
    ensures words_after { pair_of words.new ≡ (host_restored text.now).pair }
{
    let restored = logwhisker::restore_host(words, text);
    u32::from(refusal_number(&restored))
}
