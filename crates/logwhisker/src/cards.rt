// The table of up to 16 cards at one host, in 1,121 words that the caller lends, each card with a region of one memory.
// Assumes nothing: any words are a table, and any bytes get an answer. It promises what specs/Face.antt says by
// `specified_table`, which the theorems of the crates table and delivery_table are about.
ghost use Rattle.std.specs.Prelude.{◌≡◌};
ghost use Rattle.host.specs.Host.{LeavesWords};
ghost use Rattle.host_words.specs.Words.{pair_of};
ghost use Rattle.table_register.specs.TableAdopting.{taken_into};
ghost use Rattle.table_words.specs.TableWords.{table_of};
ghost use Rattle.table_words.specs.TableDescribing.{table_description};
ghost use Rattle.logwhisker.specs.Face.{
  LeftIfRefused,
  table_opened,
  card_registered,
  card_removed,
  received_at_table,
  card_acknowledgement,
  card_taken,
  card_adopted,
};
ghost use Rattle.refusal.specs.Reason.{refusal_number};

use host::{Acknowledgement, Answer};
use refusal::Reason;
use seq::FrameNo;
use table_receive::acknowledge;
pub use table_receive::acknowledge::source_of;
use table_register::adopt;
use table_words::describe;

// The promises say which table the words hold (table_of). Where a call takes effect, bits of the words that mean
// nothing are left open; opening always takes effect. A refused call leaves every word as it was, and receiving leaves
// them unless it accepts.

// Opens a table; 13 where our ID is 0.
pub fn open(words: &mut [u64; 1121], own: u16) -> Result<(), Reason>
    ensures value { refusal_number result ≡ (table_opened own).refusal }
    ensures words_after { table_of words.new ≡ (table_opened own).table }
{
    table_register::open(words, own)
}

// Registers a card by its source ID, with size bytes from first on of a memory that has so many bytes: 13, 30, 31, 29
// or 28 where it is refused.
pub fn register(
    words: &mut [u64; 1121],
    source: u16,
    first: usize,
    size: usize,
    memory: usize,
) -> Result<(), Reason>
    ensures value { refusal_number result
        ≡ (card_registered words.old source first size memory).refusal }
    ensures words_after { table_of words.new
        ≡ (card_registered words.old source first size memory).table }
    ensures left_if_refused { LeftIfRefused (refusal_number result) words.old words.new }
{
    table_register::register(words, source, first as u64, size as u64, memory as u64)
}

// Removes a card; 3 where its source is not registered.
pub fn remove(words: &mut [u64; 1121], source: u16) -> Result<(), Reason>
    ensures value { refusal_number result ≡ (card_removed words.old source).refusal }
    ensures words_after { table_of words.new ≡ (card_removed words.old source).table }
    ensures left_if_refused { LeftIfRefused (refusal_number result) words.old words.new }
{
    table_register::remove(words, source)
}

// Receives a frame from any card. Words and memory change only where it is accepted.
pub fn receive(words: &mut [u64; 1121], frame: &[u8], memory: &mut [u8]) -> Answer
    ensures value { result
        ≡ (received_at_table words.old frame.now memory.old).answer }
    ensures words_after { table_of words.new
        ≡ (received_at_table words.old frame.now memory.old).table }
    ensures memory_after { memory.new
        ≡ (received_at_table words.old frame.now memory.old).memory }
    ensures leaves_words { LeavesWords result words.old words.new }
{
    table_receive::receive(words, frame, memory)
}

// The acknowledgement that an answer calls for, from our ID to a source (source_of the frame that was answered).
pub fn acknowledge(
    words: &[u64; 1121],
    source: u16,
    answer: Answer,
    number: FrameNo,
) -> Acknowledgement
    ensures { result ≡ card_acknowledgement words.now source answer number.0 }
{
    acknowledge::acknowledge(words, source, answer, number)
}

// Copies a card's pair out as a host's; 3 where its source is not registered, and then the host stays as it is.
pub fn take(words: &[u64; 1121], source: u16, pair: &mut [u64; 67]) -> Result<(), Reason>
    ensures value { refusal_number result ≡ (card_taken words.now source).refusal }
    ensures pair_after { pair_of pair.new
        ≡ taken_into (table_of words.now) source (pair_of pair.old) }
    ensures left_if_refused { LeftIfRefused (refusal_number result) pair.old pair.new }
{
    adopt::take(words, source, pair)
}

// Registers the card that is a host's peer, with the host's pair in place of a fresh one: refused as registering is,
// with 13 also where the host's own ID is not the table's.
pub fn adopt(
    words: &mut [u64; 1121],
    pair: &[u64; 67],
    first: usize,
    size: usize,
    memory: usize,
) -> Result<(), Reason>
    ensures value { refusal_number result
        ≡ (card_adopted words.old pair.now first size memory).refusal }
    ensures words_after { table_of words.new
        ≡ (card_adopted words.old pair.now first size memory).table }
    ensures left_if_refused { LeftIfRefused (refusal_number result) words.old words.new }
{
    adopt::adopt(words, pair, first as u64, size as u64, memory as u64)
}

// Describes a table: our ID, and each place's source and region.
pub fn describe(words: &[u64; 1121]) -> [u64; 49]
    ensures { result ≡ table_description (table_of words.now) }
{
    describe::describe(words)
}
