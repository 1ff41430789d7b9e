// The plain host: a second charging host, to be read in one sitting. Its marks are arrays of yes and no, moved along
// one place at a time. Assumes nothing of the pair, which may be one that no run reaches. It promises answer, pair and
// every byte of memory as specs/Plain.antt says; the crate host_equal shows that the first host's are the same.
#![tactic(auto)]

ghost use Rattle.std.specs.Prelude.{◌≡◌, ◌<◌, ◌≤◌, length};
ghost use Rattle.refusal.specs.Reason.{number, refusal_number};
ghost use Rattle.wire.specs.Format.{carrying};
ghost use Rattle.host_plain.specs.Plain as plain;
ghost use Rattle.host_plain.specs.Passes.{TakesAll, TakesAllOrNone, TakesFrame};

use host::{Acknowledgement, Answer, Open, Refusal, Sums};
use refusal::Reason;
use seq::{FrameNo, Serial, TransNo};
use wire::MessageHeader;
use wire_read::layout;
use wire_write::headers;

// The next frame, and whether the frame next + i was accepted.
#[derive(Clone, Copy, Debug, PartialEq, Eq, Hash)]
pub struct PlainFrames {
    pub next: FrameNo,
    pub accepted: [bool; 64],
}

// The lowest transaction that is not complete; whether the transaction lowest + i is closed; and the open ones, each in
// the place that its number modulo 32 gives. A place with none is all zeros.
#[derive(Clone, Copy, Debug, PartialEq, Eq, Hash)]
pub struct PlainTransactions {
    pub lowest: TransNo,
    pub closed: [bool; 32],
    pub table: [Open; 32],
}

// What the host knows: both IDs, and its peer's frames and transactions.
#[derive(Clone, Copy, Debug, PartialEq, Eq, Hash)]
pub struct PlainPair {
    pub own: u16,
    pub peer: u16,
    pub frames: PlainFrames,
    pub transactions: PlainTransactions,
}

// A pair and the refusal of its opening, number 0 for none: a refused opening has a pair too.
#[derive(Clone, Copy, Debug, PartialEq, Eq, Hash)]
pub struct PlainOpened {
    pub pair: PlainPair,
    pub refusal: Refusal,
}

#[derive(Clone, Copy, Debug, PartialEq, Eq, Hash)]
pub struct PlainStepped {
    pub pair: PlainPair,
    pub answer: Answer,
}

// ---- opening

impl PlainPair {
    // A pair of which nothing was received yet.
    #[tactic(auto, unfolding(crate::specs::Plain::fresh))]
    fn fresh(own: u16, peer: u16) -> PlainPair
        ensures { result ≡ plain.fresh own peer }
    {
        PlainPair {
            own,
            peer,
            frames: PlainFrames {
                next: FrameNo(0),
                accepted: [false; 64],
            },
            transactions: PlainTransactions {
                lowest: TransNo(0),
                closed: [false; 32],
                table: [host::FREE; 32],
            },
        }
    }
}

// Opens a pair. Where an ID is 0, that is refused with 13, and the pair has both IDs 0.
#[tactic(auto, unfolding(crate::specs::Plain::opened_of))]
pub fn open_pair(own: u16, peer: u16) -> PlainOpened
    ensures { result ≡ plain.opened_of own peer }
{
    if own == 0 || peer == 0 {
        return PlainOpened {
            pair: PlainPair::fresh(0, 0),
            refusal: refusal(Reason::IdZero, 0),
        };
    }
    PlainOpened {
        pair: PlainPair::fresh(own, peer),
        refusal: Refusal {
            number: 0,
            place: 0,
        },
    }
}

// Why something is refused, and the index of the message that it is about, or 0.
fn refusal(reason: Reason, place: u32) -> Refusal
    ensures { result ≡ record { number = number reason; place = place } }
{
    Refusal {
        number: reason.number(),
        place,
    }
}

// ---- windows of marks

// Moves marks along one place: the first leaves, and a clear one comes in at the end.
fn move_one(marks: &mut [bool])
    requires { 0 < length marks.old }
    ensures { marks.new ≡ plain.moved_by 1 marks.old }
{
    marks[0] = false;
    marks.rotate_left(1);
}

// Moves marks along while the first is set, and answers by how many places. One at a time, as the rules have it
// (docs/RULES.md, L3), and so in no single move.
fn move_past_set(marks: &mut [bool]) -> u16
    requires { (0 < length marks.old) × (length marks.old ≤ 64) }
    ensures value { result ≡ plain.leading_set marks.old }
    ensures marks_after { marks.new ≡ plain.moved_by (plain.leading_set marks.old) marks.old }
{
    let mut places = 0;
    while marks[0] {
        move_one(marks);
        places += 1;
    }
    places
}

// ---- frame numbers

impl PlainFrames {
    // Whether a frame is in the window and accepted, or behind.
    #[tactic(auto, unfolding(crate::specs::Plain::is_settled))]
    fn is_settled(&self, number: FrameNo) -> bool
        ensures { result ≡ plain.is_settled self.now number.0 }
    {
        let d = number.distance(self.next);
        if d < 64 {
            self.accepted[d as usize]
        } else {
            32768 <= d
        }
    }

    // How many frames from the first on were received before one that was not, at most 255.
    fn run_from(&self, first: FrameNo) -> u8
        ensures { result ≡ plain.run_from 255 self.now first.0 }
    {
        let mut number = first;
        for run in 0..255 {
            if !self.is_settled(number) {
                return run;
            }
            number = number.advance(1);
        }
        255
    }

    // A frame in the window is marked, and the window begins at the first number that is not accepted.
    #[tactic(auto, unfolding(crate::specs::Plain::accepting))]
    fn accept(&mut self, number: FrameNo)
        requires { plain.past_next self.old number.0 < 64 }
        ensures { self.new ≡ plain.accepting self.old number.0 }
    {
        self.accepted[number.distance(self.next) as usize] = true;
        let places = move_past_set(&mut self.accepted);
        self.next = self.next.advance(places);
    }
}

// ---- one message

// Whether a message says other things of its transaction than the open one's first message did.
#[tactic(auto, unfolding(crate::specs::Plain::differs))]
fn is_different(o: Open, h: MessageHeader) -> bool
    ensures { result ≡ plain.differs o h }
{
    0 < o.received
        && (o.count, o.address, o.value) != (h.count, h.completion_address, h.completion_value)
}

// Whether the messages received equal the count, with this one: at once for count 0.
#[tactic(auto, unfolding(crate::specs::Plain::completes))]
fn is_complete(o: Open, h: MessageHeader) -> bool
    ensures { result ≡ plain.completes o h }
{
    u32::from(o.received) + 1 == u32::from(h.count.max(1))
}

impl PlainTransactions {
    // The entry of a message's transaction.
    fn entry_of(&self, h: MessageHeader) -> Open
        ensures { result ≡ plain.entry_of self.now h }
    {
        self.table[(h.trans.0 % 32) as usize]
    }

    // Refuses a message with len data bytes, for a memory of size bytes, for the first of reasons 7 to 12.
    #[tactic(auto, unfolding(crate::specs::Plain::message_refusal))]
    fn check_message(&self, h: MessageHeader, len: u16, size: usize) -> Result<(), Reason>
        ensures { refusal_number result ≡ plain.message_refusal self.now h len size }
    {
        let d = h.trans.distance(self.lowest) as usize;
        if 32 <= d {
            return Err(Reason::TransactionOutsideWindow);
        }
        if self.closed[d] {
            return Err(Reason::TransactionClosed);
        }
        if is_different(self.entry_of(h), h) {
            return Err(Reason::TransactionDiffers);
        }
        if h.count == 0 && 0 < len {
            return Err(Reason::BareWithData);
        }
        if size < h.data_address as usize + len as usize {
            return Err(Reason::DataOutsideMemory);
        }
        if size < h.completion_address as usize + 4 {
            return Err(Reason::CompletionOutsideMemory);
        }
        Ok(())
    }

    // A message that is not refused: its transaction is open with one more received; or it is complete, and then it is
    // closed, and the window begins at the first that is not.
    #[tactic(auto, unfolding(crate::specs::Plain::after, crate::specs::Plain::closed_by, crate::specs::Plain::keeping))]
    fn take_in(&mut self, h: MessageHeader)
        requires { plain.away self.old h < 32 }
        ensures { self.new ≡ plain.after self.old h }
    {
        let o = self.entry_of(h);
        let k = (h.trans.0 % 32) as usize;
        if !is_complete(o, h) {
            self.table[k] = Open {
                address: h.completion_address,
                value: h.completion_value,
                count: h.count,
                received: o.received.wrapping_add(1),
            };
            return;
        }
        self.table[k] = host::FREE;
        self.closed[h.trans.distance(self.lowest) as usize] = true;
        let places = move_past_set(&mut self.closed);
        self.lowest = self.lowest.advance(u32::from(places));
    }
}

// Writes a message's data, and straight after it the completion where the message completes its transaction.
#[tactic(auto, unfolding(crate::specs::Plain::effect, wire::specs::Format::carrying, octets::specs::Octets::little))]
fn write_message(memory: &mut [u8], h: MessageHeader, payload: &[u8], done: bool)
    ensures { memory.new
        ≡ plain.effect memory.old (carrying h payload.now) done }
{
    octets::write(memory, h.data_address as usize, payload);
    if done {
        let value = h.completion_value.to_le_bytes();
        octets::write(memory, h.completion_address as usize, &value);
    }
}

// ---- the messages of a frame

#[tactic(auto, unfolding(crate::specs::Plain::counted))]
fn count(s: Sums, len: u16, done: bool) -> Sums
    requires { (s.messages < 65536) × (s.bytes < 65536) × (s.completed < 65536) }
    ensures { result ≡ plain.counted s len done }
{
    Sums {
        messages: s.messages + 1,
        bytes: s.bytes + u32::from(len),
        completed: s.completed + u32::from(done),
    }
}

// What a frame's messages come to: the transactions after them, and what they brought. Nothing compares or prints it, so
// that it derives no more.
#[derive(Clone, Copy)]
struct Outcome {
    pub transactions: PlainTransactions,
    pub sums: Sums,
}

// Goes through a frame's messages, each judged against what those before it leave; without writing it is a rehearsal.
// The flag is no plainer as a closure that writes or not: memory would then be told by that closure's calls.
fn take_all(
    start: PlainTransactions,
    f: &[u8],
    memory: &mut [u8],
    writing: bool,
) -> Result<Outcome, Refusal>
    requires { length f.now ≤ 9000 }
    ensures { TakesAll start f.now memory.old writing result memory.new }
{
    let mut transactions = start;
    let mut sums = Sums {
        messages: 0,
        bytes: 0,
        completed: 0,
    };
    let mut at = wire::FRAME_HEADER;
    loop {
        let place = sums.messages;
        let found = wire_read::message_at(f, at).ok_or(refusal(Reason::PastFrameEnd, place))?;
        let h = found.header;
        transactions
            .check_message(h, found.len, memory.len())
            .map_err(|reason| refusal(reason, place))?;
        let done = is_complete(transactions.entry_of(h), h);
        if writing {
            write_message(memory, h, wire_read::data_at(f, at), done);
        }
        transactions.take_in(h);
        sums = count(sums, found.len, done);
        if !found.more {
            return Ok(Outcome { transactions, sums });
        }
        at = found.next;
    }
}

// The same where either all messages are written, or none.
fn take_all_or_none(
    start: PlainTransactions,
    f: &[u8],
    memory: &mut [u8],
) -> Result<Outcome, Refusal>
    requires { length f.now ≤ 9000 }
    ensures { TakesAllOrNone start f.now memory.old result memory.new }
{
    take_all(start, f, memory, false)?;
    take_all(start, f, memory, true)
}

// ---- receiving

fn refuse(pair: PlainPair, refusal: Refusal) -> PlainStepped
    ensures { result ≡ record { pair = pair; answer = Answer.Refused refusal } }
{
    PlainStepped {
        pair,
        answer: Answer::Refused(refusal),
    }
}

// A frame in the window that was not accepted: all its messages take effect, or none does.
fn take_frame(pair: PlainPair, f: &[u8], memory: &mut [u8], number: FrameNo) -> PlainStepped
    requires { (length f.now ≤ 9000) × (plain.past_next pair.frames number.0 < 64) }
    ensures { TakesFrame pair f.now memory.old number.0 result memory.new }
{
    match take_all_or_none(pair.transactions, f, memory) {
        Err(refusal) => refuse(pair, refusal),
        Ok(Outcome { transactions, sums }) => {
            let mut frames = pair.frames;
            frames.accept(number);
            PlainStepped {
                pair: PlainPair {
                    frames,
                    transactions,
                    ..pair
                },
                answer: Answer::Accepted(number, sums, frames.run_from(number)),
            }
        }
    }
}

// Receives a frame: answers it, and hands back the pair as it is then. Memory changes only where the frame is accepted.
pub fn receive(pair: PlainPair, f: &[u8], memory: &mut [u8]) -> PlainStepped
    ensures value { result ≡ plain.stepped_of (plain.receive_of pair f.now memory.old) }
    ensures memory_after { memory.new ≡ (plain.receive_of pair f.now memory.old).memory }
{
    if let Err(reason) = layout::check(f, pair.own, pair.peer) {
        return refuse(pair, refusal(reason, 0));
    }
    let head = wire_read::frame_header(f);
    if head.flags == 0 {
        let answer = Answer::NoMessages;
        return PlainStepped { pair, answer };
    }
    let number = head.number;
    let frames = pair.frames;
    if frames.is_settled(number) {
        let answer = Answer::Again(number, frames.run_from(number));
        return PlainStepped { pair, answer };
    }
    if 64 <= number.distance(frames.next) {
        return refuse(pair, refusal(Reason::FrameAhead, 0));
    }
    take_frame(pair, f, memory, number)
}

// ---- acknowledging

// The acknowledgement that an answer calls for, from a host whose next message frame will have this number: of the run
// that the answer ends with, where that is at least one, from the own ID to the peer's.
pub fn acknowledge(pair: PlainPair, answer: Answer, number: FrameNo) -> Acknowledgement
    ensures { result ≡ plain.acknowledgement_of pair answer number.0 }
{
    match answer {
        Answer::Accepted(start, _, run) | Answer::Again(start, run) if 0 < run => {
            Some(headers::ack_frame(pair.peer, pair.own, number, start, run))
        }
        _ => None,
    }
}
