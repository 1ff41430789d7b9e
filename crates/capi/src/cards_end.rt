// A table of cards at one host for C, behind the functions of include/logwhisker.h: numbers, slices and references to
// arrays only. Assumes of a caller that pointers and lengths are right. It promises what the library's face does, with
// answers as words and with what is due written (host_answer/specs/Due.antt).
ghost use Rattle.std.specs.Prelude.{◌≡◌, get_or};
ghost use Rattle.wire.specs.Reading.{source as source_in};
ghost use Rattle.host.specs.Host.{LeavesWords, answer_words, answer_of};
ghost use Rattle.host_answer.specs.Due.{due_number, written_where_due};
ghost use Rattle.host_words.specs.Words.{pair_of};
ghost use Rattle.table_register.specs.TableAdopting.{taken_into};
ghost use Rattle.table_words.specs.TableWords.{table_of};
ghost use Rattle.table_words.specs.TableDescribing.{table_description};
ghost use Rattle.logwhisker.specs.Face.{
  LeftIfRefused,
  table_opened,
  card_registered,
  card_removed,
  received_at_table,
  card_acknowledgement,
  card_taken,
  card_adopted,
};

use logwhisker::{FrameNo, cards, refusal_number};

// Opens a table: 0, or 13 where our ID is 0.
#[unsafe(no_mangle)]
pub extern "C" fn lw_raw_table_open(words: &mut [u64; 1121], own: u16) -> u32
    ensures value { result ≡ (table_opened own).refusal }
    ensures words_after { table_of words.new ≡ (table_opened own).table }
{
    u32::from(refusal_number(&cards::open(words, own)))
}

// Registers a card with a region of a memory of that length: 0, or the refusal.
#[unsafe(no_mangle)]
pub extern "C" fn lw_raw_table_register(
    words: &mut [u64; 1121],
    source: u16,
    first: usize,
    size: usize,
    memory: usize,
) -> u32
    ensures value { result ≡ (card_registered words.old source first size memory).refusal }
    ensures words_after { table_of words.new
        ≡ (card_registered words.old source first size memory).table }
    ensures left_if_refused { LeftIfRefused result words.old words.new }
{
    u32::from(refusal_number(&cards::register(words, source, first, size, memory)))
}

// Removes a card: 0, or 3.
#[unsafe(no_mangle)]
pub extern "C" fn lw_raw_table_remove(words: &mut [u64; 1121], source: u16) -> u32
    ensures value { result ≡ (card_removed words.old source).refusal }
    ensures words_after { table_of words.new ≡ (card_removed words.old source).table }
    ensures left_if_refused { LeftIfRefused result words.old words.new }
{
    u32::from(refusal_number(&cards::remove(words, source)))
}

// Receives a frame, and answers the kind of the answer, whose words are written, as is the source that the frame names.
#[unsafe(no_mangle)]
pub extern "C" fn lw_raw_table_receive(
    words: &mut [u64; 1121],
    frame: &[u8],
    memory: &mut [u8],
    source: &mut u16,
    answer: &mut [u64; 8],
) -> u32
    ensures value { result
        ≡ get_or (answer_words (received_at_table words.old frame.now memory.old
        ).answer) 0 0 }
    ensures words_after { table_of words.new
        ≡ (received_at_table words.old frame.now memory.old).table }
    ensures memory_after { memory.new
        ≡ (received_at_table words.old frame.now memory.old).memory }
    ensures source_after { source.new ≡ source_in frame.now }
    ensures answer_after { answer.new
        ≡ answer_words (received_at_table words.old frame.now memory.old
        ).answer }
    ensures leaves_words { LeavesWords
        (received_at_table words.old frame.now memory.old).answer
        words.old words.new }
{
    *source = cards::source_of(frame);
    let a = cards::receive(words, frame, memory);
    logwhisker::put_answer(answer, a);
    logwhisker::kind_of(a)
}

// Writes the acknowledgement that an answer to a source's frame calls for and answers 1; where it calls for none
// nothing is written and the answer is 0.
#[unsafe(no_mangle)]
pub extern "C" fn lw_raw_table_acknowledge(
    words: &[u64; 1121],
    source: u16,
    answer: &[u64; 8],
    number: u16,
    frame: &mut [u8; 10],
) -> u32
    ensures value { result
        ≡ due_number (card_acknowledgement words.now source
        (answer_of (get_or answer.now 0 0) (get_or answer.now 1 0) (get_or answer.now 7 0))
        number) }
    ensures frame_after { frame.new
        ≡ written_where_due (card_acknowledgement words.now source
        (answer_of (get_or answer.now 0 0) (get_or answer.now 1 0) (get_or answer.now 7 0))
        number)
        frame.old }
{
    let a = host_answer::answer_of(answer[0], answer[1], answer[7]);
    let ack = cards::acknowledge(words, source, a, FrameNo(number));
    logwhisker::put_acknowledgement(frame, ack)
}

// Copies a card's pair out as a host's: 0, or 3.
#[unsafe(no_mangle)]
pub extern "C" fn lw_raw_table_take(words: &[u64; 1121], source: u16, pair: &mut [u64; 67]) -> u32
    ensures value { result ≡ (card_taken words.now source).refusal }
    ensures pair_after { pair_of pair.new
        ≡ taken_into (table_of words.now) source (pair_of pair.old) }
    ensures left_if_refused { LeftIfRefused result pair.old pair.new }
{
    u32::from(refusal_number(&cards::take(words, source, pair)))
}

// Registers the card that is a host's peer, with the host's pair: 0, or the refusal.
#[unsafe(no_mangle)]
pub extern "C" fn lw_raw_table_adopt(
    words: &mut [u64; 1121],
    pair: &[u64; 67],
    first: usize,
    size: usize,
    memory: usize,
) -> u32
    ensures value { result
        ≡ (card_adopted words.old pair.now first size memory).refusal }
    ensures words_after { table_of words.new
        ≡ (card_adopted words.old pair.now first size memory).table }
    ensures left_if_refused { LeftIfRefused result words.old words.new }
{
    u32::from(refusal_number(&cards::adopt(words, pair, first, size, memory)))
}

// Describes a table: our ID, and each place's source and region.
#[unsafe(no_mangle)]
pub extern "C" fn lw_raw_table_describe(words: &[u64; 1121], description: &mut [u64; 49])
    ensures { description.new ≡ table_description (table_of words.now) }
{
    *description = cards::describe(words);
}
