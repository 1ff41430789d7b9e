// Answers as words that C reads, and back; the acknowledgement that an answer calls for, with the pair in lent words,
// and its bytes for C. Assumes nothing: any words have an answer. It promises host/specs/Host.antt, answer_words,
// answer_of and acknowledgement_of, and specs/Due.antt.
#![tactic(auto)]

ghost use Rattle.std.specs.Prelude.{◌≡◌, [], ◌∷◌, get_or};
ghost use Rattle.host.specs.Host.{answer_words, answer_of, acknowledgement_of};
ghost use Rattle.host_words.specs.Words.{pair_of};
ghost use Rattle.host_answer.specs.Due.{due_number, written_where_due};

use host::{Acknowledgement, Answer};
use host_words::pair;
use seq::FrameNo;

// An answer's eight words. The kinds are numbers because C reads them.
#[derive(Clone, Copy, Debug, PartialEq, Eq, Hash)]
struct Line {
    kind: u64,
    number: u64,
    messages: u64,
    bytes: u64,
    completed: u64,
    refusal: u64,
    place: u64,
    run: u64,
}

const NOTHING: Line = Line {
    kind: 3,
    number: 0,
    messages: 0,
    bytes: 0,
    completed: 0,
    refusal: 0,
    place: 0,
    run: 0,
};

// Writes the words in their order. Each case of an answer goes by way of this: written at once from each, a refusal and
// its place are loaded as one word of what were two stores, and a refused frame takes twice as long.
fn put_line(out: &mut [u64; 8], l: Line)
    ensures { out.new
        ≡ l.kind ∷ l.number ∷ l.messages ∷ l.bytes ∷ l.completed ∷ l.refusal ∷ l.place ∷ l.run ∷ [] }
{
    *out = [
        l.kind,
        l.number,
        l.messages,
        l.bytes,
        l.completed,
        l.refusal,
        l.place,
        l.run,
    ];
}

// Writes the answer's words.
pub fn put_answer(out: &mut [u64; 8], answer: Answer)
    ensures { out.new ≡ answer_words answer }
{
    match answer {
        Answer::Accepted(n, sums, run) => put_line(
            out,
            Line {
                kind: 1,
                number: n.0 as u64,
                messages: sums.messages as u64,
                bytes: sums.bytes as u64,
                completed: sums.completed as u64,
                run: run as u64,
                ..NOTHING
            },
        ),
        Answer::Again(n, run) => put_line(
            out,
            Line {
                kind: 2,
                number: n.0 as u64,
                run: run as u64,
                ..NOTHING
            },
        ),
        Answer::NoMessages => put_line(out, NOTHING),
        Answer::Refused(r) => put_line(
            out,
            Line {
                kind: 4,
                refusal: r.number as u64,
                place: r.place as u64,
                ..NOTHING
            },
        ),
    }
}

// The first of the answer's words, its kind.
pub fn kind_of(answer: Answer) -> u32
    ensures { result ≡ get_or (answer_words answer) 0 0 }
{
    match answer {
        Answer::Accepted(_, _, _) => 1,
        Answer::Again(_, _) => 2,
        Answer::NoMessages => 3,
        Answer::Refused(_) => 4,
    }
}

// The acknowledgement that an answer calls for, from the pair that the words hold.
pub fn acknowledge_in_place(words: &[u64], answer: Answer, number: FrameNo) -> Acknowledgement
    ensures { result ≡ acknowledgement_of (pair_of words.now) answer number.0 }
{
    pair::acknowledge_from(
        host_words::own(words),
        host_words::peer(words),
        answer,
        number,
    )
}

// What an answer's kind, number and run call for an acknowledgement by. Words that C hands in, so that any kind has an
// answer.
pub fn answer_of(kind: u64, answered: u64, run: u64) -> Answer
    ensures { result ≡ answer_of kind answered run }
{
    if kind == 1 || kind == 2 {
        return Answer::Again(FrameNo((answered % 65536) as u16), (run % 256) as u8);
    }
    Answer::NoMessages
}

// The same by the kind, the number and the run of an answer's words, which may be any.
pub fn acknowledge_words(
    words: &[u64],
    kind: u64,
    answered: u64,
    run: u64,
    number: FrameNo,
) -> Acknowledgement
    ensures { result ≡ acknowledgement_of (pair_of words.now) (answer_of kind answered run) number.0 }
{
    acknowledge_in_place(words, answer_of(kind, answered, run), number)
}

// Writes an acknowledgement that is due and answers 1; where none is due nothing is written and the answer is 0.
pub fn put_acknowledgement(out: &mut [u8; 10], ack: Acknowledgement) -> u32
    ensures value { result ≡ due_number ack }
    ensures out_after { out.new ≡ written_where_due ack out.old }
{
    if let Some(frame) = ack {
        *out = frame;
        return 1;
    }
    0
}
