// Input and output of the programs that replay: what the answer of a read means, the buffer in which answers wait to
// be written, and writing it. What reads and what writes are lent. It promises as specs/Output.antt says; whether bytes
// that are there can be written is the operating system's to say, and no promise says it.
#![tactic(auto)]

ghost use Rattle.std.specs.Prelude.{◌≡◌, ◌<◌, ◌≤◌, [], ◌∷◌, length, take, IfSome};
ghost use Rattle.std.specs.Option.{unwrap_or};
ghost use Rattle.std.specs.Io.KnownBytes.{Consumes, IsAtEnd};
ghost use Rattle.replay_text.specs.AnswerLine.{line_end, with_line};
ghost use Rattle.replay_output.specs.Output.{got_of, at_end, stopped, room_after, out_after, Writes, Makes};

use host::Answer;
use replay_text::line::Totals;
use replay_text::{answer, line};
use std::fmt::Write;
use std::io::{Error, Read};
use std::{fmt, str};

// How much of the output buffer is used, and whether reading or writing failed, or an answer was lost. Both are asked
// for of any values: what waits stays known after a failure.
#[derive(Clone, Copy, Debug, PartialEq, Eq, Hash)]
pub struct Room {
    pub used: usize,
    pub failed: bool,
}

// Bytes of the longest text of an error that is kept.
const WORDS_MOST: usize = 256;

// The text of an error. There is no heap for a String, so that an array with the length of its text stands for one.
#[derive(Drop)]
struct Words {
    bytes: [u8; WORDS_MOST],
    len: usize,
}

impl fmt::Write for Words {
    fn write_str(&mut self, s: &str) -> fmt::Result {
        for b in s.as_bytes() {
            if self.len < WORDS_MOST {
                self.bytes[self.len] = *b;
                self.len += 1;
            }
        }
        Ok(())
    }
}

// The text as it is kept. The library puts the error's number behind the words, which says nothing more.
fn words_of(bytes: &[u8]) -> &str {
    let Ok(text) = str::from_utf8(bytes) else {
        return "";
    };
    match text.split_once(" (os error ") {
        Some((words, _)) => words,
        None => text,
    }
}

// A line on standard error: what failed, and why. Where that can't be written, nothing else can tell it.
fn say<E: Eprint>(rt: &E, what: &str, error: &Error) {
    let mut text = Words {
        bytes: [0u8; WORDS_MOST],
        len: 0,
    };
    let _ = text.write(*error);
    if text.len <= WORDS_MOST {
        let words = words_of(&text.bytes[..text.len]);
        let _ = eprintln!(rt; "{what}: {words}");
    }
}

// How many bytes the operating system's answer to a read into this piece says were read, 0 at the input's end; none
// where it says that reading failed.
pub fn got_of(said: isize, piece: &[u8]) -> Option<usize>
    ensures { result ≡ got_of said (length piece.now) }
{
    if said < 0 {
        return None;
    }
    Some(io::count(said, piece))
}

// Reads into this piece, once, and answers how many bytes were read, 0 at the input's end. A failure is said on
// standard error, and nothing is read then.
pub fn read_piece<E: Eprint, R: Read>(rt: &E, input: &mut R, piece: &mut [u8]) -> Option<usize>
    ensures within { IfSome result (λ count. count ≤ length piece.new) }
    ensures brought { Consumes (R.remaining input.old) (R.remaining input.new) (take (unwrap_or result 0) piece.new) }
    ensures end { result ≡ at_end → 0 < length piece.new → IsAtEnd (R.remaining input.new) }
{
    match input.read(piece) {
        Ok(count) => Some(count),
        Err(error) => {
            say(rt, "read", &error);
            None
        }
    }
}

// Writes the used part of the output buffer, and answers whether all of it is written. Where there is something to
// write, that is the operating system's to say. A failure is said on standard error, so that no reason goes with the
// answer.
pub fn write_out<E: Print + Eprint>(rt: &E, out: &[u8], used: usize) -> bool
    ensures { Writes out.now used result }
{
    if used == 0 {
        return true;
    }
    if used <= out.len() {
        match rt.write_all(&out[..used]) {
            Ok(_) => return true,
            Err(error) => say(rt, "write", &error),
        }
    }
    false
}

// The output buffer emptied where the next line might not fit. After a failure nothing more is written, so that the
// output has no gap. Whether writing fails is what write_out says.
pub fn make_room<E: Print + Eprint>(rt: &E, out: &[u8], used: usize, failed: bool) -> Room
    ensures { Makes out.now used failed result }
{
    if failed {
        return Room { used: 0, failed };
    }
    if out.len() < used {
        return Room {
            used: 0,
            failed: true,
        };
    }
    if answer::LINE_MOST <= out.len() - used {
        return Room { used, failed };
    }
    if write_out(rt, out, used) {
        return Room { used: 0, failed };
    }
    Room {
        used: 0,
        failed: true,
    }
}

// Puts the answer of a line, if there is one, into the output buffer. A refused call, whatever its reason, puts
// nothing.
pub fn put_reply<E: Copy>(out: &mut [u8], room: Room, reply: Result<Option<Answer>, E>) -> Room
    ensures value { result ≡ room_after out.old room reply }
    ensures out_after { out.new ≡ out_after out.old room reply }
{
    match reply {
        Ok(Some(answer)) => {
            let used = line::put_answer(out, room.used, answer);
            Room { used, ..room }
        }
        Ok(None) | Err(_) => room,
    }
}

// Puts the line of the totals into the output buffer from at on, and answers the index behind it.
pub fn put_totals(out: &mut [u8], at: usize, totals: Totals) -> usize
    ensures value { result
        ≡ line_end out.old at 84 (totals.messages ∷ totals.bytes ∷ totals.completed ∷ []) }
    ensures out_after { out.new
        ≡ with_line out.old at 84 (totals.messages ∷ totals.bytes ∷ totals.completed ∷ []) }
{
    let numbers = [totals.messages, totals.bytes, totals.completed];
    answer::put_line(out, at, b'T', &numbers)
}

// Where the program stands once reading has failed: the answers so far are written, and it goes no further.
pub fn stop<E: Print + Eprint>(rt: &E, room: Room, out: &[u8]) -> Room
    ensures { result ≡ stopped }
{
    if !room.failed {
        write_out(rt, out, room.used);
    }
    Room {
        used: 0,
        failed: true,
    }
}
