// The library's face: what a caller in Rattle uses. Both ends in place over words that the caller lends, and the host
// by value; the plain host; in the module cards, a table of cards at one host; in the module billing, the subscriber
// ledger; a frame's layout; a refusal's class; the count by which a window moves; the replay from fragments. Assumes
// nothing: any words are a state, and any bytes get an answer. It promises what specs/Face.antt says, which is what the
// theorems of the crates delivery and delivery_restarts are about; what it passes on promises by the definitions of its
// own crate.
#![tactic(auto)]

pub mod billing;
pub mod cards;

ghost use Rattle.std.specs.Prelude.{◌≡◌, IfOk};
ghost use Rattle.refusal.specs.Reason.{refusal_number};
ghost use Rattle.host_words.specs.Words.{pair_of};
ghost use Rattle.card_words.specs.Words.{card_of};
ghost use Rattle.card.specs.Card.{open_transaction, seal_frame};
ghost use Rattle.host.specs.Host.{stepped_of, LeavesWords, answer_of};
ghost use Rattle.host_words.specs.Describing.{description};
ghost use Rattle.delivery.specs.System.{specified_host};
ghost use Rattle.card_send.specs.Parts.{shown_part};
ghost use Rattle.card_send.specs.Choices.{chosen_part, choice_of};
ghost use Rattle.logwhisker.specs.Face.{
  host_opened,
  received,
  acknowledgement,
  host_stored,
  buffer_filled,
  host_restored,
  card_opened,
  transaction_opened,
  message_added,
  frame_sealed,
  acks_read,
  frame_shown,
  next_chosen,
  LeftIfRefused,
};

pub use bitmap::Bitmap;
use card_build::number;
pub use card_send::choose::Chosen;
pub use card_send::show::Part;
use card_send::{choose, show};
pub use host::{Acknowledgement, Answer, Opened, Pair, Stepped};
pub use host_answer::{kind_of, put_acknowledgement, put_answer};
pub use host_plain::{
    PlainOpened, PlainPair, PlainStepped, acknowledge as acknowledge_plainly,
    open_pair as open_plain_host, receive as receive_plainly,
};
use host_receive::by_value;
use host_store::{restore, store};
use host_words::{describe, opening, pair};
pub use refusal::{Class, Reason, class_of, refusal_number};
pub use replay_feed::{close as close_replay, feed as feed_replay, open as open_replay};
pub use replay_text::Reply;
pub use replay_text::line::Totals;
pub use replay_text::place::{Closed, Fed, is_full as is_replay_full};
pub use seq::{FrameNo, Serial, TransNo};
pub use wire_read::layout::{Layout, layout_of};

// ---- the host, in 67 words

// The promises say which pair the words hold (pair_of). Where a call takes effect, bits of the words that mean nothing
// are left open; opening and restoring always take effect. Receiving leaves every word as it was unless it accepts.

// Opens a host; 13 where an ID is 0, and then the host is a fresh one with both IDs 0.
pub fn open_host(words: &mut [u64; 67], own: u16, peer: u16) -> Result<(), Reason>
    ensures refused { refusal_number result ≡ (host_opened own peer).refusal.number }
    ensures words_after { pair_of words.new ≡ (host_opened own peer).pair }
{
    opening::open_in_place(words, own, peer)
}

// Receives a frame. Words and memory change only where it is accepted.
pub fn receive(words: &mut [u64; 67], frame: &[u8], memory: &mut [u8]) -> Answer
    ensures value { result ≡ (received words.old frame.now memory.old).answer }
    ensures words_after { pair_of words.new
        ≡ (received words.old frame.now memory.old).pair }
    ensures memory_after { memory.new
        ≡ (received words.old frame.now memory.old).memory }
    ensures leaves_words { LeavesWords result words.old words.new }
{
    host_receive::receive_in_place(words, frame, memory)
}

// The acknowledgement that an answer calls for, from a host whose next message frame will have this number.
pub fn acknowledge(words: &[u64; 67], answer: Answer, number: FrameNo) -> Acknowledgement
    ensures { result ≡ acknowledgement words.now answer number.0 }
{
    host_answer::acknowledge_in_place(words, answer, number)
}

// The same where of the answer only its kind, number and run are at hand, as words.
pub fn acknowledge_words(
    words: &[u64; 67],
    kind: u64,
    answered: u64,
    run: u64,
    number: FrameNo,
) -> Acknowledgement
    ensures { result ≡ acknowledgement words.now (answer_of kind answered run) number.0 }
{
    host_answer::acknowledge_words(words, kind, answered, run, number)
}

// Describes a host: IDs, windows, and the open transactions, nearest the lowest first.
pub fn describe_host(words: &[u64; 67]) -> [u64; 167]
    ensures { result ≡ description (pair_of words.now) }
{
    describe::describe(words)
}

// Stores a host's pair as text from the start of a lent buffer on, and gives the text's length; 13 where an ID is 0,
// then 19 where the buffer is shorter than the text.
pub fn store_host(words: &[u64; 67], buffer: &mut [u8]) -> Result<usize, Reason>
    ensures refused { refusal_number result ≡ (host_stored words.now buffer.old).refusal }
    ensures stored { IfOk result (λ length. length ≡ (host_stored words.now buffer.old).length) }
    ensures buffer_after { buffer.new ≡ buffer_filled words.now buffer.old }
{
    store::store(words, buffer)
}

// Reads a host's pair back from its text; 15 where no pair has that text, and then the host is a fresh one with both
// IDs 0.
pub fn restore_host(words: &mut [u64; 67], text: &[u8]) -> Result<(), Reason>
    ensures refused { refusal_number result ≡ (host_restored text.now).refusal.number }
    ensures words_after { pair_of words.new ≡ (host_restored text.now).pair }
{
    restore::restore(words, text)
}

// ---- the host by value

// Opens a host as a value; 13 where an ID is 0, and then the pair is a fresh one with both IDs 0.
pub fn open_host_by_value(own: u16, peer: u16) -> Opened
    ensures { result ≡ host_opened own peer }
{
    pair::open_pair(own, peer)
}

// Receives a frame with the pair as a value, which comes back with the answer.
pub fn receive_by_value(pair: Pair, frame: &[u8], memory: &mut [u8]) -> Stepped
    ensures value { result ≡ stepped_of (specified_host.receiving pair frame.now memory.old) }
    ensures memory_after { memory.new
        ≡ (specified_host.receiving pair frame.now memory.old).memory }
{
    by_value::receive(pair, frame, memory)
}

// The acknowledgement that an answer calls for, from a pair as a value.
pub fn acknowledge_by_value(pair: Pair, answer: Answer, number: FrameNo) -> Acknowledgement
    ensures { result ≡ specified_host.acknowledging pair answer number.0 }
{
    pair::acknowledge(pair, answer, number)
}

// ---- the card, in 85 words

// The promises say which card the words hold (card_of). Where a call takes effect, bits of the words that mean nothing
// are left open; opening the card always takes effect. A refused step leaves every word as it was.

// Opens a card with a frame limit; 13 where an ID is 0, then 26 where the limit or the slot buffer is not as it must
// be. Where it is refused, the card is a fresh one with both IDs and the limit 0.
pub fn open_card(
    words: &mut [u64; 85],
    own: u16,
    peer: u16,
    limit: usize,
    slots: &[u8],
) -> Result<(), Reason>
    ensures refused { refusal_number result ≡ (card_opened own peer limit slots.now).refusal }
    ensures words_after { card_of words.new ≡ (card_opened own peer limit slots.now).card }
{
    card_build::opening::open_card(words, own, peer, limit, slots)
}

// Opens a transaction of count data messages whose completion writes value at address, and gives its number; 20 where
// 32 from the lowest unfinished one on are open or finished.
pub fn open_transaction(
    words: &mut [u64; 85],
    count: u16,
    address: u32,
    value: u32,
) -> Result<TransNo, Reason>
    ensures refused { refusal_number result ≡ (transaction_opened words.old count address value).refusal }
    ensures opened { IfOk result (λ trans. trans ≡ (open_transaction (card_of words.old) count address value).trans) }
    ensures words_after { card_of words.new ≡ (transaction_opened words.old count address value).card }
    ensures left_if_refused { LeftIfRefused (refusal_number result) words.old words.new }
{
    number::open_transaction(words, count, address, value)
}

// Adds one message of a transaction, with data for an address, to the frame being built.
pub fn add_message(
    words: &mut [u64; 85],
    slots: &mut [u8],
    trans: TransNo,
    address: u32,
    payload: &[u8],
) -> Result<(), Reason>
    ensures refused { refusal_number result
        ≡ (message_added words.old slots.old trans.0 address payload.now).refusal }
    ensures words_after { card_of words.new
        ≡ (message_added words.old slots.old trans.0 address payload.now).card }
    ensures slots_after { slots.new
        ≡ (message_added words.old slots.old trans.0 address payload.now).slots }
    ensures left_if_refused { LeftIfRefused (refusal_number result) words.old words.new }
{
    card_build::add_message(words, slots, trans, address, payload)
}

// Seals the frame being built, and gives its number.
pub fn seal_frame(words: &mut [u64; 85], slots: &[u8]) -> Result<FrameNo, Reason>
    ensures refused { refusal_number result ≡ (frame_sealed words.old slots.now).refusal }
    ensures sealed { IfOk result (λ number. number ≡ (seal_frame (card_of words.old) slots.now).number) }
    ensures words_after { card_of words.new ≡ (frame_sealed words.old slots.now).card }
    ensures left_if_refused { LeftIfRefused (refusal_number result) words.old words.new }
{
    number::seal_frame(words, slots)
}

// Reads the acknowledgements of an arriving frame.
pub fn read_acknowledgements(words: &mut [u64; 85], frame: &[u8]) -> Result<(), Reason>
    ensures refused { refusal_number result ≡ (acks_read words.old frame.now).refusal }
    ensures words_after { card_of words.new ≡ (acks_read words.old frame.now).card }
    ensures left_if_refused { LeftIfRefused (refusal_number result) words.old words.new }
{
    card_acks::read_acknowledgements(words, frame)
}

// Shows a held frame: a part of the slots, empty where the showing is refused.
pub fn show_frame<'a>(words: &[u64; 85], slots: &'a [u8], number: FrameNo) -> &'a [u8]
    ensures { result.now ≡ (frame_shown words.now slots.now number.0).part }
{
    show::show_frame(words, slots, number)
}

// Whether the showing is refused, and why.
pub fn check_show(words: &[u64; 85], slots: &[u8], number: FrameNo) -> Result<(), Reason>
    ensures { refusal_number result ≡ (frame_shown words.now slots.now number.0).refusal }
{
    show::check_show(words, slots, number)
}

// Chooses what goes out next: the lent acknowledgement if it has 10 bytes, else the oldest held frame, each as a part
// of its own buffer; an empty part where the choice is refused.
pub fn choose_next<'a>(words: &[u64; 85], slots: &'a [u8], ack: &'a [u8]) -> &'a [u8]
    ensures { result.now ≡ (next_chosen words.now slots.now ack.now).part }
{
    choose::choose_next(words, slots, ack)
}

// Whether the choice is refused, and why.
pub fn check_choose(words: &[u64; 85], slots: &[u8], ack: &[u8]) -> Result<(), Reason>
    ensures { refusal_number result ≡ (next_chosen words.now slots.now ack.now).refusal }
{
    choose::check_choose(words, slots, ack)
}

// ---- parts as numbers, for callers that no reference can be handed back to

// Where the part that show_frame hands out lies in the slots.
pub fn show_part(words: &[u64; 85], slots: &[u8], number: FrameNo) -> Result<Part, Reason>
    ensures refused { refusal_number result ≡ (frame_shown words.now slots.now number.0).refusal }
    ensures carried { refusal_number result ≡ (shown_part words.now slots.now number.0).refusal }
    ensures shown { IfOk result (λ part. part ≡ (shown_part words.now slots.now number.0).part) }
{
    show::show_part(words, slots, number)
}

// What choose_next hands out: the lent acknowledgement, or where the frame lies in the slots.
pub fn choose_part(words: &[u64; 85], slots: &[u8], ack: &[u8]) -> Result<Chosen, Reason>
    ensures refused { refusal_number result ≡ (next_chosen words.now slots.now ack.now).refusal }
    ensures carried { refusal_number result ≡ (chosen_part words.now slots.now ack.now).refusal }
    ensures chosen { IfOk result (λ x. choice_of x ≡ chosen_part words.now slots.now ack.now) }
{
    choose::choose_part(words, slots, ack)
}
