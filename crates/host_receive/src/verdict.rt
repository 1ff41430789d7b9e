// The verdict on one message at the host: refused, or whether it completes its transaction, and the state that it
// leaves. Assumes nothing of the state that it is held against, which may be one that no run reaches. It promises
// host/specs/Transactions.antt, fills, left_in and verdict_of.
ghost use Rattle.std.specs.Prelude.{◌≡◌};
ghost use Rattle.host.specs.Transactions.{fills, one_received, left_in, closed_verdict, verdict_of};
ghost use Rattle.host_receive.specs.Judging.{verdict_from, verdict_as};

use crate::message;
use bitmap::Bitmap;
use host::Open;
use refusal::Reason;
use seq::{Serial, TransNo};
use wire::MessageHeader;

// The verdict on a message that is not refused: whether it completes its transaction, and the window and the
// transaction's entry after it. Nothing compares or prints it, so that it derives no more.
#[derive(Clone, Copy)]
pub(crate) struct Judged {
    pub(crate) done: bool,
    pub(crate) lowest: TransNo,
    pub(crate) closed: u32,
    pub(crate) entry: Open,
}

// Whether the messages received equal the count, with this one: then it completes its transaction.
#[tactic(auto, unfolding(host::specs::Transactions::fills))]
pub(crate) fn completes(o: Open, h: MessageHeader) -> bool
    ensures { result ≡ fills o h }
{
    wire::messages_needed(h.count) as u32 == o.received as u32 + 1
}

// The entry of a transaction with one message more, which does not complete it.
pub(crate) fn one_more(o: Open, h: MessageHeader) -> Open
    ensures { result ≡ one_received o h }
{
    Open {
        address: h.completion_address,
        value: h.completion_value,
        count: h.count,
        received: o.received.wrapping_add(1),
    }
}

// The entry that a message leaves which is not refused.
pub(crate) fn left_in(o: Open, h: MessageHeader) -> Open
    ensures { result ≡ left_in o h }
{
    if completes(o, h) {
        host::FREE
    } else {
        one_more(o, h)
    }
}

// The verdict on a message that completes its transaction, which lies d past the lowest one that is not complete.
#[tactic(auto, unfolding(host::specs::Transactions::closed_verdict))]
fn closed_after(lowest: TransNo, closed: u32, d: u32) -> Judged
    ensures { verdict_from result ≡ closed_verdict lowest.0 closed d }
{
    let marked = closed.with_mark(d);
    let run = marked.run_length();
    Judged {
        done: true,
        lowest: lowest.advance(run),
        closed: marked.shifted(run),
        entry: host::FREE,
    }
}

// The verdict on a message with len data bytes, against the window and the entry of its transaction in the table, and a
// memory of size bytes.
#[tactic(auto, unfolding(host::specs::Transactions::verdict_of, host::specs::Transactions::refused_verdict, host::specs::Transactions::closed_verdict, host::specs::Transactions::open_verdict,))]
pub(crate) fn judge(
    lowest: TransNo,
    closed: u32,
    o: Open,
    h: MessageHeader,
    len: u16,
    size: usize,
) -> Result<Judged, Reason>
    ensures { verdict_as lowest.0 closed o result ≡ verdict_of lowest.0 closed o h len size }
{
    let d = h.trans.distance(lowest);
    message::check(d, closed, o, h, len, size)?;
    if completes(o, h) {
        return Ok(closed_after(lowest, closed, d));
    }
    Ok(Judged {
        done: false,
        lowest,
        closed,
        entry: one_more(o, h),
    })
}
