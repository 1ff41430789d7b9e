// A registered source's pair copied out of a table in 1,121 words into the 67 words of a host, and a host's pair put
// into a table. Assumes nothing: words of other numbers stay as they are. It promises table/specs/Adopting.antt of what
// the words hold (specs/TableAdopting.antt).
ghost use Rattle.std.specs.Prelude.{◌≡◌, ◌<◌, length};
ghost use Rattle.host_words.specs.Words.{word_count, pair_of};
ghost use Rattle.table.specs.Table.{with_entry};
ghost use Rattle.table_words.specs.TableWords.{table_words, table_of};
ghost use Rattle.table_register.specs.TableAdopting.{TakesOut, Adopts};
ghost use Rattle.refusal.specs.Reason.{refusal_number};

use crate::Card;
use refusal::Reason;

// Makes a place hold a source with its region, and a pair.
fn put_entry(words: &mut [u64], k: usize, card: Card, pair: &[u64])
    requires { (k < 16) × (length words.old ≡ table_words) × (length pair.now ≡ word_count) }
    ensures { table_of words.new ≡ with_entry (table_of words.old) k
        (record { source = card.source; first = card.first; size = card.size; pair = pair_of pair.now }) }
{
    words[table_words::SOURCES + k] = u64::from(card.source);
    words[table_words::FIRSTS + k] = card.first;
    words[table_words::SIZES + k] = card.size;
    let at = table_words::PAIRS + table_words::PAIR * k;
    let stop = at + table_words::PAIR;
    words[at..stop].copy_from_slice(pair);
}

// Copies a registered source's pair out, which is refused where it is not registered.
pub fn take(words: &[u64], source: u16, pair: &mut [u64]) -> Result<(), Reason>
    ensures { TakesOut words.now source pair.old pair.new (refusal_number result) }
{
    if words.len() != table_words::TABLE_WORDS {
        return Err(Reason::OtherLength);
    }
    if pair.len() != host_words::WORDS {
        return Err(Reason::OtherLength);
    }
    if source == 0 {
        return Err(Reason::WrongId);
    }
    let Some(k) = crate::place_of(words, source) else {
        return Err(Reason::WrongId);
    };
    let at = table_words::PAIRS + table_words::PAIR * k;
    let stop = at + table_words::PAIR;
    pair.copy_from_slice(&words[at..stop]);
    Ok(())
}

// Registers a host's pair with size bytes of the memory from first on. It is refused as registering is, with 13 also
// where the host's own ID is not the table's.
pub fn adopt(
    words: &mut [u64],
    pair: &[u64],
    first: u64,
    size: u64,
    memory: u64,
) -> Result<(), Reason>
    ensures { Adopts words.old pair.now first size memory words.new (refusal_number result) }
{
    if words.len() != table_words::TABLE_WORDS {
        return Err(Reason::OtherLength);
    }
    if pair.len() != host_words::WORDS {
        return Err(Reason::OtherLength);
    }
    if host_words::own(pair) != table_words::own(words) {
        return Err(Reason::IdZero);
    }
    let card = Card {
        source: host_words::peer(pair),
        first,
        size,
    };
    let k = crate::check_registering(words, card, memory)?;
    put_entry(words, k, card, pair);
    Ok(())
}
