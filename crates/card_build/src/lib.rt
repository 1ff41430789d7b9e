// Adding a message to the frame being built. The card is in words that are lent and changed in place; the slot buffer
// is lent, and written to inside the slot of that frame only. Assumes nothing of words, slots and data. It promises
// what card/specs/Card.antt says of the card that the words hold, every byte of the slots, and that a refused adding
// changes no word.
#![tactic(auto)]

pub mod admit;
pub mod number;
pub mod opening;

ghost use Rattle.std.specs.Prelude.{◌≡◌, true, cond, [], ◌+◌, ◌≤◌, eqb, length};
ghost use Rattle.refusal.specs.Reason.{refusal_number};
ghost use Rattle.wire.specs.Format.{carrying, message_header};
ghost use Rattle.wire.specs.Writing.{first_message, next_message};
ghost use Rattle.card.specs.Sendings.{takes};
ghost use Rattle.card.specs.Card.{fits, header_offset, message_of, built_slots, with_message, add_message};
ghost use Rattle.card_words.specs.Words.{card_of, Becomes, Steps, or_other_length};
ghost use Rattle.card_build.specs.Building.{added_in};

use card::Sending;
use card_words::{CARD_WORDS, Head, update};
use refusal::Reason;
use seq::TransNo;
use wire::MessageHeader;

// ---- writing a message, and counting it

// The header of a message of transaction t with data for an address.
fn header_of(words: &[u64], t: TransNo, at: u32) -> MessageHeader
    ensures { result ≡ message_header (message_of (card_of words.now) t.0 at []) }
{
    let e = card_words::sending_at(words, t);
    MessageHeader {
        trans: t,
        completion_address: e.address,
        completion_value: e.value,
        count: e.count,
        data_address: at,
    }
}

// Writes a message into the slot of the frame being built: the first one with the frame's header, a later one after
// those so far.
fn write_in_slot(slot: &mut [u8], c: Head, h: MessageHeader, payload: &[u8])
    ensures { slot.new ≡ cond (eqb c.used 0)
        (first_message slot.old c.peer c.own c.next.0 (carrying h payload.now))
        (next_message slot.old c.used c.last (carrying h payload.now)) }
{
    if c.used == 0 {
        wire_write::write_first(slot, c.peer, c.own, c.next, h, payload);
    } else {
        wire_write::write_next(slot, c.used as usize, c.last as usize, h, payload);
    }
}

// Writes a message that has room into the slot of the frame being built, which is lent to the frame writer.
fn write_message(words: &[u64], slots: &mut [u8], t: TransNo, at: u32, payload: &[u8])
    requires { fits (card_of words.now).limit slots.old ≡ true }
    ensures { slots.new ≡ built_slots (card_of words.now) slots.old
        (message_of (card_of words.now) t.0 at payload.now) }
{
    let c = card_words::head_of(words);
    let start = card::slot_start(c.limit, c.next);
    let end = start + c.limit as usize;
    let h = header_of(words, t, at);
    write_in_slot(&mut slots[start..end], c, h, payload);
}

// Counts a message that has room: in its transaction, which takes it, and in the frame being built.
fn count_message(words: &mut [u64], t: TransNo, payload: &[u8])
    requires t_value { takes (card_of words.old).sendings t.0 ≡ true }
    requires payload_bound { header_offset (card_of words.old) + 24 + length payload.now ≤ 9000 }
    ensures { Becomes words.old words.new
        (with_message (card_of words.old) t.0 payload.now) }
{
    let h = card_words::head_of(words);
    let e = card_words::sending_at(words, t);
    update::put_sending(
        words,
        t,
        Sending {
            added: e.added + 1,
            frame: h.next,
            ..e
        },
    );
    let start = admit::header_offset(h.used);
    update::put_head(
        words,
        Head {
            used: (start + wire::MESSAGE_HEADER + payload.len()) as u16,
            last: start as u16,
            ..h
        },
    );
}

// ---- adding it

// Adds one message of transaction t, with data for an address, to the frame being built.
pub fn add_message(
    words: &mut [u64],
    slots: &mut [u8],
    t: TransNo,
    at: u32,
    payload: &[u8],
) -> Result<(), Reason>
    ensures refused { refusal_number result ≡ or_other_length words.old (add_message
        (card_of words.old) slots.old t.0 at payload.now).step.refusal }
    ensures steps { Steps words.old words.new (refusal_number result)
        (add_message (card_of words.old) slots.old t.0 at payload.now).step.card }
    ensures slots_after { slots.new ≡ added_in words.old slots.old t.0 at payload.now }
{
    if words.len() != CARD_WORDS {
        return Err(Reason::OtherLength);
    }
    admit::check_adding(words, slots, t, payload)?;
    write_message(words, slots, t, at, payload);
    count_message(words, t, payload);
    Ok(())
}
