// Receiving a frame at a table in place: the table lies in 1,121 words that the caller lends, and the frame and the
// memory are lent too. The host's own receiving runs on the part of the words that holds the source's pair, and on the
// source's region of the memory. Assumes nothing. It promises table, answer and every byte of memory as
// table/specs/Table.antt, table_receive, says of the table that the words hold (specs/TableReceiving.antt).
#![tactic(auto)]

pub mod acknowledge;

ghost use Rattle.std.specs.Prelude.{◌≡◌, IfOk, length};
ghost use Rattle.table_words.specs.TableWords.{table_of, table_words};
ghost use Rattle.table_receive.specs.TableReceiving.{FoundAt, TableReceives};
ghost use Rattle.table.specs.Table.{table_refusal};
ghost use Rattle.refusal.specs.Reason.{refusal_number};

use host::Answer;
use host_receive::refuse;
use refusal::Reason;

// The place of a frame's source, and the source's region. Nothing compares or prints it, so that it derives no more.
#[derive(Clone, Copy)]
struct Reached {
    place: usize,
    first: usize,
    size: usize,
}

// Refusals 1, 2, 3 and 31 in their order, of a frame that comes with a memory of some length; else what it reaches.
fn find(words: &[u64], f: &[u8], memory: usize) -> Result<Reached, Reason>
    requires { length words.now ≡ table_words }
    ensures refusal { refusal_number result ≡ table_refusal (table_of words.now) f.now memory }
    ensures reached { IfOk result (λ r. FoundAt words.now f.now memory r.place r.first r.size) }
{
    if f.len() < wire::FRAME_HEADER {
        return Err(Reason::FrameTooShort);
    }
    if wire::FRAME_MOST < f.len() {
        return Err(Reason::FrameTooLong);
    }
    let head = wire_read::frame_header(f);
    if head.destination != table_words::own(words) {
        return Err(Reason::WrongId);
    }
    if head.source == 0 {
        return Err(Reason::WrongId);
    }
    let sources = &words[table_words::SOURCES..table_words::FIRSTS];
    let Some(place) = table_words::position(sources, head.source) else {
        return Err(Reason::WrongId);
    };
    let first = table_words::first_at(words, place);
    let size = table_words::size_at(words, place);
    let end = memory as u64;
    if end < first {
        return Err(Reason::RegionOutsideMemory);
    }
    if end - first < size {
        return Err(Reason::RegionOutsideMemory);
    }
    Ok(Reached {
        place,
        first: first as usize,
        size: size as usize,
    })
}

// Receives a frame at a table in 1,121 words. They and the memory change only where the frame is accepted.
pub fn receive(words: &mut [u64], f: &[u8], memory: &mut [u8]) -> Answer
    ensures { TableReceives words.old f.now memory.old words.new
        memory.new result }
{
    if words.len() != table_words::TABLE_WORDS {
        return refuse::refusing(Reason::OtherLength.number(), 0);
    }
    match find(words, f, memory.len()) {
        Err(reason) => refuse::refusing(reason.number(), 0),
        Ok(Reached { place, first, size }) => {
            let at = table_words::PAIRS + table_words::PAIR * place;
            let stop = at + table_words::PAIR;
            let end = first + size;
            host_receive::receive_in_place(&mut words[at..stop], f, &mut memory[first..end])
        }
    }
}
