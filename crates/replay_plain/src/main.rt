// The sister of the program replay, which runs the plain host: the same input and the same output. It feeds what it
// reads to the crate replay_plain_feed, piece by piece, and writes the text of what that answers; what a read brought,
// and writing, are the crate replay_output's, as the first program's are.
// Where reading or writing fails, that is said on standard error and no totals are written: the exit status is 0 all
// the same, so it is the last line that tells a whole replay.
#![tactic(auto)]

use host_plain::PlainPair;
use refusal::Reason;
use replay_output::Room;
use replay_text::line::Totals;
use replay_text::place::{Closed, Fed};
use replay_text::{Reply, place};
use std::io::Read;

// Bytes of a piece of the input, and of the output that waits.
const PIECE: usize = 65536;

// A replay with what it is lent: the place that it has reached, the host's pair, the line being read and the memory.
#[derive(Drop)]
struct Replay {
    place: [u64; 9],
    pair: PlainPair,
    frame: [u8; 9000],
    memory: [u8; 4096],
}

impl Replay {
    fn open() -> Replay {
        let mut place = [0; 9];
        let mut memory = [0; 4096];
        let pair = replay_plain_feed::open(&mut place, &mut memory);
        Replay {
            place,
            pair,
            frame: [0; 9000],
            memory,
        }
    }

    fn feed(&mut self, fragment: &[u8]) -> Result<Fed, Reason> {
        let step = replay_plain_feed::feed(
            &mut self.place,
            self.pair,
            &mut self.frame,
            &mut self.memory,
            fragment,
        );
        self.pair = step.pair;
        step.fed
    }

    fn close(&mut self) -> Result<Closed, Reason> {
        let step = replay_plain_feed::close(
            &mut self.place,
            self.pair,
            &self.frame,
            &mut self.memory,
        );
        self.pair = step.pair;
        step.closed
    }

    fn is_full(&self) -> bool {
        place::is_full(&self.place)
    }
}

// From here on the two programs are the same but for Replay. A function for both would be a public one, which promises
// its whole result: what is read and written here is the operating system's to say, and has no words for that.

// The output buffer, in which answers wait to be written, and how far it is used.
#[derive(Drop)]
struct Output {
    bytes: [u8; PIECE],
    room: Room,
}

impl Output {
    fn new() -> Output {
        Output {
            bytes: [0; PIECE],
            room: Room {
                used: 0,
                failed: false,
            },
        }
    }

    fn make_room<E: Print + Eprint>(&mut self, rt: &E) {
        self.room = replay_output::make_room(rt, &self.bytes, self.room.used, self.room.failed);
    }

    fn put_reply<E: Print + Eprint>(&mut self, rt: &E, reply: Reply) {
        self.make_room(rt);
        self.room = replay_output::put_reply(&mut self.bytes, self.room, reply);
    }

    // Writes what waits, and the totals behind it; after a failure there are none.
    fn finish<E: Print + Eprint>(&mut self, rt: &E, totals: Totals) {
        self.make_room(rt);
        if self.room.failed {
            return;
        }
        let used = replay_output::put_totals(&mut self.bytes, self.room.used, totals);
        replay_output::write_out(rt, &self.bytes, used);
    }

    fn stop<E: Print + Eprint>(&mut self, rt: &E) {
        self.room = replay_output::stop(rt, self.room, &self.bytes);
    }
}

// Feeds a piece until it is taken whole, and puts the answer of each line that ends in it into the output buffer. No
// call on an open replay takes nothing of what is left; the test is there since a loop that is proved has to end.
fn take_piece<E: Print + Eprint>(rt: &E, piece: &[u8], replay: &mut Replay, output: &mut Output) {
    let mut rest = piece;
    while !rest.is_empty() {
        let Ok(fed) = replay.feed(rest) else {
            return;
        };
        if fed.taken == 0 || rest.len() < fed.taken {
            return;
        }
        rest = &rest[fed.taken..];
        output.put_reply(rt, Ok(fed.answer));
    }
}

// Takes in the input piece by piece, until it ends or enough lines are answered. A loop that is proved has to end, and
// nothing says that the input does: no run uses these turns up.
fn read_all<E: Print + Eprint, R: Read>(
    rt: &E,
    input: &mut R,
    replay: &mut Replay,
    output: &mut Output,
) {
    let mut piece = [0u8; PIECE];
    for _ in 0..u64::MAX {
        match replay_output::read_piece(rt, input, &mut piece) {
            None => {
                output.stop(rt);
                return;
            }
            Some(0) => return,
            Some(count) => take_piece(rt, &piece[..count], replay, output),
        }
        if output.room.failed || replay.is_full() {
            return;
        }
    }
}

// The last line, and then the totals.
fn finish<E: Print + Eprint>(rt: &E, replay: &mut Replay, output: &mut Output) {
    if let Ok(closed) = replay.close() {
        output.put_reply(rt, Ok(closed.answer));
        output.finish(rt, closed.totals);
    }
}

fn main(rt: HostRuntime) {
    let mut replay = Replay::open();
    let mut output = Output::new();
    let mut input = rt.reader();
    read_all(&rt, &mut input, &mut replay, &mut output);
    finish(&rt, &mut replay, &mut output);
}
