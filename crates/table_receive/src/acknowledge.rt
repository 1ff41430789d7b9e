// Whom a frame is from, and the acknowledgement that an answer to it calls for, from the table in lent words to that
// source. Assumes nothing: any words and any bytes have an answer. It promises wire/specs/Reading.antt, source, and
// host/specs/Host.antt, acknowledgement_from: together table/specs/Table.antt, table_acknowledgement.
ghost use Rattle.std.specs.Prelude.{◌≡◌};
ghost use Rattle.wire.specs.Reading.{source as source_in};
ghost use Rattle.host.specs.Host.{acknowledgement_from};
ghost use Rattle.table_words.specs.TableWords.{table_of};

use host::{Acknowledgement, Answer};
use host_words::pair;
use seq::FrameNo;

// The source that a frame names. A byte that is not there counts as 0.
pub fn source_of(f: &[u8]) -> u16
    ensures { result ≡ source_in f.now }
{
    wire_read::frame_header(f).source
}

// From our ID to a source, with the number that the caller gives.
pub fn acknowledge(words: &[u64], source: u16, answer: Answer, number: FrameNo) -> Acknowledgement
    ensures { result ≡ acknowledgement_from (table_of words.now).own source answer number.0 }
{
    pair::acknowledge_from(table_words::own(words), source, answer, number)
}
