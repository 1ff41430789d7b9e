// The card for C, behind the functions of include/logwhisker.h: numbers, slices and references to arrays only. Assumes
// of a caller that pointers and lengths are right. It promises what the library's face does, with parts as numbers
// (specs/CardEndNumbers.antt).
ghost use Rattle.std.specs.Prelude.{◌≡◌};
ghost use Rattle.card.specs.Card.{open_transaction, seal_frame};
ghost use Rattle.card_send.specs.Parts.{shown_part};
ghost use Rattle.card_send.specs.Choices.{choice_of, chosen_part};
ghost use Rattle.card_words.specs.Words.{card_of};
ghost use Rattle.logwhisker.specs.Face.{
  card_opened,
  transaction_opened,
  message_added,
  frame_sealed,
  acks_read,
  frame_shown,
  next_chosen,
  LeftIfRefused,
};
ghost use Rattle.capi.specs.CardEndNumbers.{unless_refused, part_numbers, choice_numbers};

use logwhisker::{Chosen, FrameNo, TransNo, refusal_number};

// Opens a card: 0, or 13, or 26.
#[unsafe(no_mangle)]
pub extern "C" fn lw_raw_card_open(
    words: &mut [u64; 85],
    own: u16,
    peer: u16,
    limit: usize,
    slots: &[u8],
) -> u32
    ensures value { result ≡ (card_opened own peer limit slots.now).refusal }
    ensures words_after { card_of words.new ≡ (card_opened own peer limit slots.now).card }
{
    let opened = logwhisker::open_card(words, own, peer, limit, slots);
    u32::from(refusal_number(&opened))
}

// Opens a transaction: 0 and its number, or 20.
#[unsafe(no_mangle)]
pub extern "C" fn lw_raw_card_open_transaction(
    words: &mut [u64; 85],
    count: u16,
    address: u32,
    value: u32,
    transaction: &mut u32,
) -> u32
    ensures value { result ≡ (transaction_opened words.old count address value).refusal }
    ensures words_after { card_of words.new ≡ (transaction_opened words.old count address value).card }
    ensures transaction_after { transaction.new
        ≡ unless_refused (transaction_opened words.old count address value).refusal
        (open_transaction (card_of words.old) count address value).trans.0 transaction.old }
    ensures left_if_refused { LeftIfRefused result words.old words.new }
{
    let opened = logwhisker::open_transaction(words, count, address, value);
    if let Ok(trans) = opened {
        *transaction = trans.0;
    }
    u32::from(refusal_number(&opened))
}

// Adds a message to the frame being built.
#[unsafe(no_mangle)]
pub extern "C" fn lw_raw_card_add(
    words: &mut [u64; 85],
    slots: &mut [u8],
    transaction: u32,
    address: u32,
    payload: &[u8],
) -> u32
    ensures value { result
        ≡ (message_added words.old slots.old transaction address payload.now).refusal }
    ensures words_after { card_of words.new
        ≡ (message_added words.old slots.old transaction address payload.now).card }
    ensures slots_after { slots.new
        ≡ (message_added words.old slots.old transaction address payload.now).slots }
    ensures left_if_refused { LeftIfRefused result words.old words.new }
{
    let added = logwhisker::add_message(words, slots, TransNo(transaction), address, payload);
    u32::from(refusal_number(&added))
}

// Seals the frame being built: 0 and its number, or 26, or 24.
#[unsafe(no_mangle)]
pub extern "C" fn lw_raw_card_seal(words: &mut [u64; 85], slots: &[u8], number: &mut u16) -> u32
    ensures value { result ≡ (frame_sealed words.old slots.now).refusal }
    ensures words_after { card_of words.new ≡ (frame_sealed words.old slots.now).card }
    ensures number_after { number.new
        ≡ unless_refused (frame_sealed words.old slots.now).refusal
        (seal_frame (card_of words.old) slots.now).number.0 number.old }
    ensures left_if_refused { LeftIfRefused result words.old words.new }
{
    let sealed = logwhisker::seal_frame(words, slots);
    if let Ok(frame) = sealed {
        *number = frame.0;
    }
    u32::from(refusal_number(&sealed))
}

// Reads the acknowledgements of an arriving frame.
#[unsafe(no_mangle)]
pub extern "C" fn lw_raw_card_read(words: &mut [u64; 85], frame: &[u8]) -> u32
    ensures value { result ≡ (acks_read words.old frame.now).refusal }
    ensures words_after { card_of words.new ≡ (acks_read words.old frame.now).card }
    ensures left_if_refused { LeftIfRefused result words.old words.new }
{
    let read = logwhisker::read_acknowledgements(words, frame);
    u32::from(refusal_number(&read))
}

// Shows a held frame: where it lies in the slots, and how long it is.
#[unsafe(no_mangle)]
pub extern "C" fn lw_raw_card_show(
    words: &[u64; 85],
    slots: &[u8],
    number: u16,
    part: &mut [u64; 2],
) -> u32
    ensures value { result ≡ (frame_shown words.now slots.now number).refusal }
    ensures part_after { part.new
        ≡ part_numbers (shown_part words.now slots.now number).part }
{
    let shown = logwhisker::show_part(words, slots, FrameNo(number));
    *part = match shown {
        Ok(bounds) => [bounds.offset as u64, bounds.len as u64],
        Err(_) => [0, 0],
    };
    u32::from(refusal_number(&shown))
}

// From which buffer a choice is, where it lies there, and how long it is.
fn numbers_of(chosen: Chosen) -> [u64; 3]
    ensures { result ≡ choice_numbers (choice_of chosen) }
{
    match chosen {
        Chosen::Acknowledgement => [1, 0, wire::FRAME_HEADER as u64],
        Chosen::Frame(bounds) => [0, bounds.offset as u64, bounds.len as u64],
    }
}

// Chooses what goes out next: from which buffer (1 the lent acknowledgement, 0 the slots), where it lies there, and how
// long it is.
#[unsafe(no_mangle)]
pub extern "C" fn lw_raw_card_choose(
    words: &[u64; 85],
    slots: &[u8],
    ack: &[u8],
    part: &mut [u64; 3],
) -> u32
    ensures value { result ≡ (next_chosen words.now slots.now ack.now).refusal }
    ensures part_after { part.new
        ≡ choice_numbers (chosen_part words.now slots.now ack.now) }
{
    let chosen = logwhisker::choose_part(words, slots, ack);
    *part = match chosen {
        Ok(choice) => numbers_of(choice),
        Err(_) => [0, 0, 0],
    };
    u32::from(refusal_number(&chosen))
}
