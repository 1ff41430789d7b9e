// The second pass over a frame's messages, of which the first pass found none refused: each takes effect in its turn,
// on its transaction's entry in the words and on memory. Assumes nothing: a write that does not fit the memory is none,
// and where there are not 67 words nothing changes. It promises the pair and every byte of the memory
// (specs/Applying.antt).
ghost use Rattle.std.specs.Prelude.{◌≡◌};
ghost use Rattle.wire.specs.Format.{carrying};
ghost use Rattle.host.specs.Host.{effect};
ghost use Rattle.host_receive.specs.Applying.{TakesEffect, Applies};

use crate::verdict;
use host_words::update;
use wire::MessageHeader;

// A message's data at its address, and straight after it the completion where the message completes its transaction.
fn write_message(memory: &mut [u8], h: MessageHeader, payload: &[u8], done: bool)
    ensures { memory.new ≡ effect memory.old (carrying h payload.now) done }
{
    octets::write(memory, h.data_address as usize, payload);
    if done {
        let value = octets::little4(h.completion_value);
        octets::write(memory, h.completion_address as usize, &value);
    }
}

// One message takes effect: its data and its completion are written, and its entry is what it leaves.
fn take_effect(words: &mut [u64], memory: &mut [u8], h: MessageHeader, payload: &[u8])
    ensures { TakesEffect words.old memory.old h payload.now words.new
        memory.new }
{
    let number = h.trans;
    let o = host_words::entry(words, number);
    write_message(memory, h, payload, verdict::completes(o, h));
    update::put_entry(words, number, verdict::left_in(o, h));
}

// The first n messages of a frame take effect, or as many as it has.
pub(crate) fn apply(words: &mut [u64], f: &[u8], memory: &mut [u8], n: u32)
    ensures { Applies words.old f.now memory.old n words.new
        memory.new }
{
    if words.len() != host_words::WORDS {
        return;
    }
    let mut at = wire::FRAME_HEADER;
    for _ in 0..n {
        let Some(found) = wire_read::message_at(f, at) else {
            return;
        };
        take_effect(words, memory, found.header, wire_read::data_at(f, at));
        at = found.next;
    }
}
