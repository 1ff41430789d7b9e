// The charging host by value for C: each call unpacks the pair from the lent words, has the face work on it by value,
// and packs it again. Nothing in include/logwhisker.h calls these; tests run them beside the engine in place. Assumes
// of a caller that pointers and lengths are right. It promises what the functions of host_end do.
ghost use Rattle.std.specs.Prelude.{◌≡◌, get_or};
ghost use Rattle.host.specs.Host.{LeavesWords, answer_words, answer_of};
ghost use Rattle.host_words.specs.Words.{pair_of};
ghost use Rattle.logwhisker.specs.Face.{host_opened, received, acknowledgement};
ghost use Rattle.host_answer.specs.Due.{due_number, written_where_due};

use host_words::pack;
use logwhisker::FrameNo;

// Opens a host: 0, or 13 where an ID is 0.
#[unsafe(no_mangle)]
pub extern "C" fn lw_raw_host_open_by_value(words: &mut [u64; 67], own: u16, peer: u16) -> u32
    ensures value { result ≡ (host_opened own peer).refusal.number }
    ensures words_after { pair_of words.new ≡ (host_opened own peer).pair }
{
    let opened = logwhisker::open_host_by_value(own, peer);
    pack::pack(words, opened.pair);
    u32::from(opened.refusal.number)
}

// Receives a frame, and answers the kind of the answer, whose words are written. The pair is packed only where the
// frame is accepted, so that any other answer leaves the words as they were.
#[unsafe(no_mangle)]
pub extern "C" fn lw_raw_host_receive_by_value(
    words: &mut [u64; 67],
    frame: &[u8],
    memory: &mut [u8],
    answer: &mut [u64; 8],
) -> u32
    ensures value { result
        ≡ get_or (answer_words (received words.old frame.now memory.old).answer) 0 0 }
    ensures words_after { pair_of words.new
        ≡ (received words.old frame.now memory.old).pair }
    ensures memory_after { memory.new
        ≡ (received words.old frame.now memory.old).memory }
    ensures answer_after { answer.new
        ≡ answer_words (received words.old frame.now memory.old).answer }
    ensures leaves_words { LeavesWords (received words.old frame.now memory.old).answer
        words.old words.new }
{
    let stepped = logwhisker::receive_by_value(pack::unpack(words), frame, memory);
    let a = stepped.answer;
    // A number, since C is told it.
    let kind = logwhisker::kind_of(a);
    if kind == 1 {
        let pair = stepped.pair;
        pack::pack(words, pair);
    }
    logwhisker::put_answer(answer, a);
    kind
}

// Writes the acknowledgement that an answer calls for and answers 1; where it calls for none nothing is written and the
// answer is 0.
#[unsafe(no_mangle)]
pub extern "C" fn lw_raw_host_acknowledge_by_value(
    words: &[u64; 67],
    answer: &[u64; 8],
    number: u16,
    frame: &mut [u8; 10],
) -> u32
    ensures value { result
        ≡ due_number (acknowledgement words.now
        (answer_of (get_or answer.now 0 0) (get_or answer.now 1 0) (get_or answer.now 7 0))
        number) }
    ensures frame_after { frame.new
        ≡ written_where_due (acknowledgement words.now
        (answer_of (get_or answer.now 0 0) (get_or answer.now 1 0) (get_or answer.now 7 0))
        number)
        frame.old }
{
    let a = host_answer::answer_of(answer[0], answer[1], answer[7]);
    let ack = logwhisker::acknowledge_by_value(pack::unpack(words), a, FrameNo(number));
    logwhisker::put_acknowledgement(frame, ack)
}
