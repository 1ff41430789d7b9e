// Opening a table in 1,121 words that the caller lends, registering a source with a region of memory, and removing it.
// Assumes nothing: words of another number stay as they are. It promises the table that the words hold then, and the
// refusal, as table/specs/Table.antt has them (specs/TableChanging.antt).
#![tactic(auto)]

pub mod adopt;

ghost use Rattle.std.specs.Prelude.{◌≡◌, ◌<◌, ◌≤◌, IfNone, IfOk, IfSome, length};
ghost use Rattle.host.specs.Host.{opened_of};
ghost use Rattle.table.specs.Table.{place_of, register_refusal, with_entry};
ghost use Rattle.table_words.specs.TableWords.{table_words, table_of};
ghost use Rattle.table_register.specs.TableChanging.{OpensTable, RegistersAt, RemovesFrom};
ghost use Rattle.refusal.specs.Reason.{refusal_number};

use host_words::opening;
use refusal::Reason;

// A source and its region of the memory. Nothing compares or prints it, so that it derives no more.
#[derive(Clone, Copy)]
pub(crate) struct Card {
    source: u16,
    first: u64,
    size: u64,
}

// What stands at a free place.
const FREE: Card = Card {
    source: 0,
    first: 0,
    size: 0,
};

// Makes a place hold a source with its region, and a pair as opening hands it back: free, and fresh for IDs 0.
fn put_place(words: &mut [u64], k: usize, card: Card, own: u16, peer: u16)
    requires { (k < 16) × (length words.old ≡ table_words) }
    ensures { table_of words.new ≡ with_entry (table_of words.old) k
        (record { source = card.source; first = card.first; size = card.size; pair = (opened_of own peer).pair }) }
{
    words[table_words::SOURCES + k] = u64::from(card.source);
    words[table_words::FIRSTS + k] = card.first;
    words[table_words::SIZES + k] = card.size;
    let at = table_words::PAIRS + table_words::PAIR * k;
    let stop = at + table_words::PAIR;
    let _ = opening::open_in_place(&mut words[at..stop], own, peer);
}

// Opens a table in 1,121 words. Where our ID is 0 it is opened too, and refused.
pub fn open(words: &mut [u64], own: u16) -> Result<(), Reason>
    ensures { OpensTable words.old own words.new (refusal_number result) }
{
    if words.len() != table_words::TABLE_WORDS {
        return Err(Reason::OtherLength);
    }
    words[0] = u64::from(own);
    for k in 0..table_words::PLACES {
        put_place(words, k, FREE, 0, 0);
    }
    if own == 0 {
        return Err(Reason::IdZero);
    }
    Ok(())
}

// The first place with a source.
pub(crate) fn place_of(words: &[u64], source: u16) -> Option<usize>
    requires { length words.now ≡ table_words }
    ensures none { IfNone result (16 ≤ place_of (table_of words.now).entries source) }
    ensures some { IfSome result (λ k. (k ≡ place_of (table_of words.now).entries source) × (k < 16)) }
{
    table_words::position(&words[table_words::SOURCES..table_words::FIRSTS], source)
}

// What registering is refused for; and where it is not, the place that is free for it.
pub(crate) fn check_registering(words: &[u64], card: Card, memory: u64) -> Result<usize, Reason>
    requires { length words.now ≡ table_words }
    ensures refusal { refusal_number result
        ≡ register_refusal (table_of words.now) card.source card.first card.size memory }
    ensures place { IfOk result (λ k. (k ≡ place_of (table_of words.now).entries 0) × (k < 16)) }
{
    if table_words::own(words) == 0 {
        return Err(Reason::IdZero);
    }
    if card.source == 0 {
        return Err(Reason::IdZero);
    }
    if place_of(words, card.source).is_some() {
        return Err(Reason::SourceRegistered);
    }
    if card.size == 0 {
        return Err(Reason::RegionOutsideMemory);
    }
    if table_words::before_end(memory, card.first, card.size) {
        return Err(Reason::RegionOutsideMemory);
    }
    if table_words::overlaps_any(words, card.first, card.size) {
        return Err(Reason::RegionOverlaps);
    }
    let Some(k) = place_of(words, 0) else {
        return Err(Reason::TableFull);
    };
    Ok(k)
}

// Registers a source with size bytes of the memory from first on, where a memory of that length is lent. The first free
// place takes it, with a fresh pair.
pub fn register(
    words: &mut [u64],
    source: u16,
    first: u64,
    size: u64,
    memory: u64,
) -> Result<(), Reason>
    ensures { RegistersAt words.old source first size memory words.new (refusal_number result) }
{
    if words.len() != table_words::TABLE_WORDS {
        return Err(Reason::OtherLength);
    }
    let card = Card {
        source,
        first,
        size,
    };
    let k = check_registering(words, card, memory)?;
    let own = table_words::own(words);
    put_place(words, k, card, own, source);
    Ok(())
}

// Removes a source, which is refused where it is not registered. Its place is free again.
pub fn remove(words: &mut [u64], source: u16) -> Result<(), Reason>
    ensures { RemovesFrom words.old source words.new (refusal_number result) }
{
    if words.len() != table_words::TABLE_WORDS {
        return Err(Reason::OtherLength);
    }
    if source == 0 {
        return Err(Reason::WrongId);
    }
    let Some(place) = place_of(words, source) else {
        return Err(Reason::WrongId);
    };
    put_place(words, place, FREE, 0, 0);
    Ok(())
}
