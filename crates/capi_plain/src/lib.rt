// The plain host for C, behind the functions of include/logwhisker.h: its state lies in 228 words that the caller
// lends, one for each mark and each number. Assumes of a caller that pointers and lengths are right; any words are a
// state. It promises the words, the answer and the memory by the plain host's own definitions (specs/Words.antt).
#![tactic(auto)]

ghost use Rattle.std.specs.Prelude.{◌≡◌, ◌+◌, ◌<◌, ◌≤◌, get_or};
ghost use Rattle.host.specs.Host.{answer_words};
ghost use Rattle.host_answer.specs.Due.{due_number, written_where_due};
ghost use Rattle.host_plain.specs.Plain.{opened_of};
ghost use Rattle.capi_plain.specs.Words.{
  marks_from,
  entry_at,
  table_of,
  plain_of,
  head_word,
  entry_word,
  word_at,
  words_of,
  received,
  left_words,
  acknowledgement,
};

use host::Open;
use host_plain::{PlainFrames, PlainPair, PlainTransactions};
use seq::{FrameNo, TransNo};

// ---- a state read from words

// Marks that each have a word, from start on.
fn marks_from<const N: usize>(w: &[u64; 228], start: usize) -> [bool; N]
    requires { start + N ≤ 228 }
    ensures { result ≡ marks_from start N w.now }
{
    std::array::from_fn(|i| w[start + i] != 0)
}

// An entry of the table.
#[tactic(auto, unfolding(crate::specs::Words::entry_at))]
fn entry_of(w: &[u64; 228], i: usize) -> Open
    requires { i < 32 }
    ensures { result ≡ entry_at w.now i }
{
    let at = 100 + 4 * i;
    Open {
        address: (w[at] % 4294967296) as u32,
        value: (w[at + 1] % 4294967296) as u32,
        count: (w[at + 2] % 65536) as u16,
        received: (w[at + 3] % 65536) as u16,
    }
}

fn table_of(w: &[u64; 228]) -> [Open; 32]
    ensures { result ≡ table_of w.now }
{
    std::array::from_fn(|i| entry_of(w, i))
}

// The state that the words hold.
fn plain_of(w: &[u64; 228]) -> PlainPair
    ensures { result ≡ plain_of w.now }
{
    PlainPair {
        own: (w[0] % 65536) as u16,
        peer: (w[1] % 65536) as u16,
        frames: PlainFrames {
            next: FrameNo((w[2] % 65536) as u16),
            accepted: marks_from(w, 4),
        },
        transactions: PlainTransactions {
            lowest: TransNo((w[3] % 4294967296) as u32),
            closed: marks_from(w, 68),
            table: table_of(w),
        },
    }
}

// ---- words of a state

#[tactic(auto, unfolding(crate::specs::Words::head_word))]
fn head_word(q: &PlainPair, i: usize) -> u64
    ensures { result ≡ head_word q.now i }
{
    match i {
        0 => u64::from(q.own),
        1 => u64::from(q.peer),
        2 => u64::from(q.frames.next.0),
        _ => u64::from(q.transactions.lowest.0),
    }
}

#[tactic(auto, unfolding(crate::specs::Words::entry_word))]
fn entry_word(o: Open, k: usize) -> u64
    ensures { result ≡ entry_word o k }
{
    match k {
        0 => u64::from(o.address),
        1 => u64::from(o.value),
        2 => u64::from(o.count),
        _ => u64::from(o.received),
    }
}

#[tactic(auto, unfolding(crate::specs::Words::word_at))]
fn word_at(q: &PlainPair, i: usize) -> u64
    requires { i < 228 }
    ensures { result ≡ word_at q.now i }
{
    match i {
        0..4 => head_word(q, i),
        4..68 => u64::from(q.frames.accepted[i - 4]),
        68..100 => u64::from(q.transactions.closed[i - 68]),
        _ => entry_word(q.transactions.table[(i - 100) / 4], (i - 100) % 4),
    }
}

fn words_of(q: &PlainPair) -> [u64; 228]
    ensures { result ≡ words_of q.now }
{
    std::array::from_fn(|i| word_at(q, i))
}

// ---- for C

// Opens a plain host: 0, or 13 where an ID is 0.
#[unsafe(no_mangle)]
pub extern "C" fn lw_raw_plain_open(words: &mut [u64; 228], own: u16, peer: u16) -> u32
    ensures value { result ≡ (opened_of own peer).refusal.number }
    ensures words_after { words.new ≡ words_of (opened_of own peer).pair }
{
    let opened = host_plain::open_pair(own, peer);
    *words = words_of(&opened.pair);
    u32::from(opened.refusal.number)
}

// Receives a frame, and answers the kind of the answer, whose words are written. The state's words change only where
// the frame is accepted.
#[unsafe(no_mangle)]
pub extern "C" fn lw_raw_plain_receive(
    words: &mut [u64; 228],
    frame: &[u8],
    memory: &mut [u8],
    answer: &mut [u64; 8],
) -> u32
    ensures value { result
        ≡ get_or (answer_words (received words.old frame.now memory.old).answer) 0 0 }
    ensures words_after { words.new
        ≡ left_words words.old (received words.old frame.now memory.old) }
    ensures memory_after { memory.new
        ≡ (received words.old frame.now memory.old).memory }
    ensures answer_after { answer.new
        ≡ answer_words (received words.old frame.now memory.old).answer }
{
    let stepped = host_plain::receive(plain_of(words), frame, memory);
    let a = stepped.answer;
    let kind = host_answer::kind_of(a);
    if kind == 1 {
        *words = words_of(&stepped.pair);
    }
    host_answer::put_answer(answer, a);
    kind
}

// Writes the acknowledgement that an answer calls for and answers 1; where it calls for none nothing is written and the
// answer is 0.
#[unsafe(no_mangle)]
pub extern "C" fn lw_raw_plain_acknowledge(
    words: &[u64; 228],
    answer: &[u64; 8],
    number: u16,
    frame: &mut [u8; 10],
) -> u32
    ensures value { result ≡ due_number (acknowledgement words.now answer.now number) }
    ensures frame_after { frame.new
        ≡ written_where_due (acknowledgement words.now answer.now number) frame.old }
{
    let a = host_answer::answer_of(answer[0], answer[1], answer[7]);
    let ack = host_plain::acknowledge(plain_of(words), a, FrameNo(number));
    host_answer::put_acknowledgement(frame, ack)
}
