// A subscriber ledger in 2,049 words that a caller lends: opened, given blocks of readings, and asked for totals and
// the sum. Assumes nothing: any words hold a ledger, any bytes get an answer, and words of another number stay as they
// are.
// It promises what the definitions of the crate ledger say of the ledger that the words hold (specs/LedgerCalls.antt).
#![tactic(auto)]

ghost use Rattle.std.specs.Prelude.{◌≡◌, ◌%◌, if◌then◌else◌, map, nat_le};
ghost use Rattle.seq.specs.Ring.{distance};
ghost use Rattle.ledger.specs.Ledger.{counter_space, reading_of, fault, entered, entered_all};
ghost use Rattle.ledger_words.specs.LedgerWords.{accounts_in, ledger_in, reading_in};
ghost use Rattle.ledger_words.specs.Room.{room_for};
ghost use Rattle.ledger_words.specs.LedgerCalls.{OpensLedger, TakesBlock, if_read, told_total};
ghost use Rattle.refusal.specs.Reason.{refusal_number};

use refusal::Reason;

// A ledger takes this many words; a call that is lent another number of words is refused.
pub const LEDGER_WORDS: usize = 2049;

// The word that is the sum.
const SUM: usize = 2048;

const SUBSCRIBERS: u32 = 1024;
// Once a subscriber was read, its second word is this plus its last counter.
const READ: u64 = 1 << 32;

// So many readings add less than HALF.
const READINGS_MOST: usize = 1 << 31;

const HALF: u64 = 1 << 63;

// All the words of a ledger.
type Words = [u64; LEDGER_WORDS];

// ---- one reading

// What a subscriber's counter told.
#[derive(Clone, Copy, Debug, PartialEq, Eq)]
struct Reading {
    subscriber: u32,
    counter: u32,
}

impl Reading {
    fn of(bytes: &[u8; 8]) -> Reading
        ensures { reading_of result.subscriber result.counter ≡ reading_in bytes.now }
    {
        Reading {
            subscriber: octets::u32_at(bytes, 0),
            counter: octets::u32_at(bytes, 4),
        }
    }
}

// What a reading charges to a subscriber whose second word is `kept`.
fn charge_of(kept: u64, counter: u32) -> u64
    ensures { result ≡ (if nat_le counter_space kept then distance counter_space (kept % counter_space) counter else 0) }
{
    if kept < READ {
        return 0;
    }
    u64::from(counter.wrapping_sub((kept % READ) as u32))
}

// What a reading is refused for. The sum is given apart: while a block is entered, the one in the words is old.
fn check_reading(words: &Words, sum: u64, reading: Reading) -> Result<(), Reason>
    ensures { refusal_number result
        ≡ fault (accounts_in words.now sum) (reading_of reading.subscriber reading.counter) }
{
    if SUBSCRIBERS <= reading.subscriber {
        return Err(Reason::UnknownSubscriber);
    }
    let at = 2 * reading.subscriber as usize;
    let charge = charge_of(words[at + 1], reading.counter);
    words[at].checked_add(charge).ok_or(Reason::Past64Bits)?;
    sum.checked_add(charge).ok_or(Reason::Past64Bits)?;
    Ok(())
}

// Enters one reading that has no fault into its subscriber's words, and answers the new sum. A first reading charges 0
// and is stored as any other.
#[tactic(auto, using(crate::proofs::Holding::first_word, crate::proofs::Holding::second_word))]
fn enter(words: &mut Words, sum: u64, reading: Reading) -> u64
    requires { fault (accounts_in words.old sum) (reading_of reading.subscriber reading.counter) ≡ 0 }
    ensures { accounts_in words.new result
        ≡ entered (accounts_in words.old sum) (reading_of reading.subscriber reading.counter) }
{
    let at = 2 * reading.subscriber as usize;
    let charge = charge_of(words[at + 1], reading.counter);
    words[at] += charge;
    words[at + 1] = READ + u64::from(reading.counter);
    sum + charge
}

// ---- one block

// Whether a look at the block's subscribers shows that no reading can have a fault. Their numbers and their totals are
// or-ed and compared once, at the end, so that no reading costs a branch.
fn has_room(words: &Words, block: &[[u8; 8]]) -> bool
    ensures { result ≡ room_for (ledger_in words.now) (map reading_in block.now) }
{
    if READINGS_MOST < block.len() || HALF <= words[SUM] {
        return false;
    }
    let mut any = 0;
    let mut high = 0;
    for bytes in block {
        let subscriber = Reading::of(bytes).subscriber;
        any |= subscriber;
        high |= words[2 * (subscriber % SUBSCRIBERS) as usize];
    }
    any < SUBSCRIBERS && high < HALF
}

// The first fault of the block's readings: they are entered into a copy.
fn first_fault(words: &Words, block: &[[u8; 8]]) -> Result<(), Reason>
    ensures { refusal_number result
        ≡ (entered_all (ledger_in words.now) (map reading_in block.now)).refusal }
{
    let mut copy = *words;
    let mut sum = words[SUM];
    for bytes in block {
        let reading = Reading::of(bytes);
        check_reading(&copy, sum, reading)?;
        sum = enter(&mut copy, sum, reading);
    }
    Ok(())
}

// What the block is refused for. The copy of the ledger is made only where the quick test fails.
fn check_block(words: &Words, block: &[[u8; 8]]) -> Result<(), Reason>
    ensures { refusal_number result
        ≡ (entered_all (ledger_in words.now) (map reading_in block.now)).refusal }
{
    if has_room(words, block) {
        return Ok(());
    }
    first_fault(words, block)
}

// Enters the block's readings, none of which has a fault. The sum is stored once, at the end.
fn enter_all(words: &mut Words, block: &[[u8; 8]])
    requires { (entered_all (ledger_in words.old) (map reading_in block.now)).refusal ≡ 0 }
    ensures { ledger_in words.new
        ≡ (entered_all (ledger_in words.old) (map reading_in block.now)).ledger }
{
    let mut sum = words[SUM];
    for bytes in block {
        sum = enter(words, sum, Reading::of(bytes));
    }
    words[SUM] = sum;
}

// ---- for callers

// Makes the ledger empty.
pub fn open(words: &mut [u64]) -> Result<(), Reason>
    ensures { OpensLedger words.old words.new (refusal_number result) }
{
    if words.len() != LEDGER_WORDS {
        return Err(Reason::OtherLength);
    }
    words.fill(0);
    Ok(())
}

// Takes a block of readings. Where it is refused, no word changes.
pub fn take(words: &mut [u64], block: &[u8]) -> Result<(), Reason>
    ensures { TakesBlock words.old block.now words.new (refusal_number result) }
{
    let Some(words) = words.as_mut_array() else {
        return Err(Reason::OtherLength);
    };
    let (readings, rest) = block.as_chunks();
    if !rest.is_empty() {
        return Err(Reason::NotWholeReadings);
    }
    check_block(words, readings)?;
    enter_all(words, readings);
    Ok(())
}

// What is charged to a subscriber: nothing where it was never read, or is not below 1,024.
pub fn total(w: &[u64], subscriber: u32) -> Option<u64>
    ensures { result ≡ if_read (told_total (ledger_in w.now) subscriber) }
{
    if SUBSCRIBERS <= subscriber {
        return None;
    }
    let at = 2 * subscriber as usize;
    if words::word(w, at + 1) < READ {
        return None;
    }
    Some(words::word(w, at))
}

// The sum of what is charged to all subscribers.
pub fn sum(w: &[u64]) -> u64
    ensures { result ≡ (ledger_in w.now).summary }
{
    words::word(w, SUM)
}
