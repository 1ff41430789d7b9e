// Opening a pair, and the acknowledgement that an answer calls for, by value. Assumes nothing. It promises
// host/specs/Host.antt, opened_of and acknowledgement_of.
ghost use Rattle.std.specs.Prelude.{◌≡◌, IfOk, IfErr};
ghost use Rattle.refusal.specs.Reason.{number};
ghost use Rattle.host.specs.Host.{fresh, refused_opening, opened_of, range_of, acknowledgement_from, acknowledgement_of};
ghost use Rattle.host_words.specs.Opening.{opening};

use host::{Acknowledgement, Answer, Opened, Pair, Range, Refusal};
use refusal::Reason;
use seq::{FrameNo, TransNo};
use wire_write::headers;

const NO_RANGE: Range = Range {
    start: FrameNo(0),
    count: 0,
};

pub(crate) fn fresh_pair(own: u16, peer: u16) -> Pair
    ensures { result ≡ fresh own peer }
{
    Pair {
        own,
        peer,
        next: FrameNo(0),
        marks: 0,
        lowest: TransNo(0),
        closed: 0,
        table: [host::FREE; 32],
    }
}

// Refuses an ID 0.
pub(crate) fn check_ids(own: u16, peer: u16) -> Result<(), Reason>
    ensures allowed { IfOk result (λ done. opened_of own peer
        ≡ record { pair = fresh own peer; refusal = record { number = 0; place = 0 } }) }
    ensures refused { IfErr result (λ reason. (number reason ≡ 13) × (opened_of own peer ≡ refused_opening)) }
{
    if own == 0 || peer == 0 {
        return Err(Reason::IdZero);
    }
    Ok(())
}

// Opens a pair; refusal 13 where an ID is 0.
pub(crate) fn open(own: u16, peer: u16) -> Result<Pair, Reason>
    ensures { opening result ≡ opened_of own peer }
{
    check_ids(own, peer)?;
    Ok(fresh_pair(own, peer))
}

// A pair that was opened or read, or its refusal, with a pair in either case: one with both IDs 0 where it was refused.
pub fn opened(opened: Result<Pair, Reason>) -> Opened
    ensures { result ≡ opening opened }
{
    match opened {
        Ok(pair) => Opened {
            pair,
            refusal: Refusal {
                number: 0,
                place: 0,
            },
        },
        Err(reason) => Opened {
            pair: fresh_pair(0, 0),
            refusal: Refusal {
                number: reason.number(),
                place: 0,
            },
        },
    }
}

// Opens a pair by value; refusal 13 where an ID is 0.
pub fn open_pair(own: u16, peer: u16) -> Opened
    ensures { result ≡ opened_of own peer }
{
    opened(open(own, peer))
}

// The frame numbers that an answer acknowledges.
fn range_of(answer: Answer) -> Range
    ensures { result ≡ range_of answer }
{
    match answer {
        Answer::Accepted(start, _, count) => Range { start, count },
        Answer::Again(start, count) => Range { start, count },
        Answer::NoMessages => NO_RANGE,
        Answer::Refused(_) => NO_RANGE,
    }
}

// The acknowledgement that an answer calls for, from an end with these IDs whose next message frame will have this
// number.
pub fn acknowledge_from(own: u16, peer: u16, answer: Answer, number: FrameNo) -> Acknowledgement
    ensures { result ≡ acknowledgement_from own peer answer number.0 }
{
    let range = range_of(answer);
    (0 < range.count).then_some(headers::ack_frame(peer, own, number, range.start, range.count))
}

// The same from a pair's own end.
pub fn acknowledge(pair: Pair, answer: Answer, number: FrameNo) -> Acknowledgement
    ensures { result ≡ acknowledgement_of pair answer number.0 }
{
    acknowledge_from(pair.own, pair.peer, answer, number)
}
