// The first pass over a frame's messages: each is judged against what those before it leave, and nothing is written.
// The entries of the table are read in the words. Assumes nothing: any bytes and any words get an answer. It promises
// specs/Validating.antt.
ghost use Rattle.std.proofs.Common.{rules};
ghost use Rattle.std.specs.Prelude.{◌≡◌, ◌%◌, false, Option, None, Some, Ok, Err, List, ℕ, IfOk, IfErr};
ghost use Rattle.bitmap.specs.Marks.{mark};
ghost use Rattle.host.specs.declared.Open.{Open};
ghost use Rattle.host.specs.Host.{transactions_of};
ghost use Rattle.host_words.specs.Words.{pair_of};
ghost use Rattle.host_receive.specs.declared.refuse.Refused.{Refused};
ghost use Rattle.host_receive.specs.declared.validate.Stop.TheVariants.{Refusal, MetAgain};
ghost use Rattle.host_receive.specs.Validating.{Finds};
ghost use Rattle.host_receive.specs.Keeping.{Shows, Moves, StandsApart, StandsKept};

use crate::refuse::Refused;
use crate::verdict::{self, Judged};
use bitmap::Bitmap;
use host::{Open, Sums};
use host_words::update;
use refusal::Reason;
use seq::TransNo;

// What is found of a frame's messages up to an offset, none of which is refused: the sums, and the transactions' window
// as it is after them. The offset is a word, so the compiler moves a `Result` of all this by whole words. Nothing compares
// or prints it, so that it derives no more.
#[derive(Clone, Copy)]
pub(crate) struct Validated {
    pub(crate) at: usize,
    pub(crate) sums: Sums,
    pub(crate) lowest: TransNo,
    pub(crate) closed: u32,
}

// What is kept of the entries that a frame's messages change.
trait Entries {
    // Why the messages are judged no further.
    type Stop: From<Refused>;

    // The words, with the entries that are kept, stand for a table.
    ghost stands: { Self → List ℕ → List Open → Type 0 };

    // The refusal that it is; none where an entry that was changed is not kept.
    ghost refusal: { Self.Stop → Option Refused };

    // A transaction's entry is known as the messages so far leave it.
    ghost knows: { Self → ℕ → Type 0 };

    // Stops where a transaction's entry is not known.
    fn check_known(&self, number: TransNo) -> Result<(), Self::Stop>
        ensures known { IfOk result (λ done. knows self.now number.0) }
        ensures again { IfErr result (λ stop. refusal stop ≡ None) };

    // A transaction's entry, where it is known. It is no value of that `Result`: behind a tag of half a word an entry is
    // stored and loaded in pieces that do not match, and a processor waits for these.
    fn current(&self, words: &[u64], number: TransNo) -> Open
        ensures { knows self.now number.0 → Shows (stands self.now) words.now number.0 result };

    // A message was judged by its entry.
    fn note(&mut self, number: TransNo, o: Open, judged: Judged)
        ensures { Moves (stands self.old) (stands self.new) number.0 o judged };

    ghost told: { (r : Refused) (stop : Self.Stop) → Self.Stop.from_gives r stop → refusal stop ≡ Some r };
}

// Only which entries were changed.
#[derive(Drop)]
struct Apart {
    changed: u32,
}

// Refused, or an entry is met again that the frame changed.
enum Stop {
    Refusal(Refused),
    MetAgain,
}

impl From<Refused> for Stop {
    ghost from_gives = { λ refused stop. stop ≡ Refusal refused };

    fn from(refused: Refused) -> Stop {
        Stop::Refusal(refused)
    }
}

impl Entries for Apart {
    type Stop = Stop;

    ghost stands = { λ e. StandsApart e.changed };

    ghost refusal = { elim [ Refusal r ↦ Some r | MetAgain ↦ None ] };

    ghost knows = { λ e number. mark e.changed (number % 32) ≡ false };

    fn check_known(&self, number: TransNo) -> Result<(), Stop> {
        if self.changed.is_marked(number.0 % 32) {
            return Err(Stop::MetAgain);
        }
        Ok(())
    }

    fn current(&self, words: &[u64], number: TransNo) -> Open {
        host_words::entry(words, number)
    }

    // An entry that was empty and is empty again stays unmarked.
    fn note(&mut self, number: TransNo, o: Open, judged: Judged) {
        if !(judged.done && o.received == 0) {
            self.changed = self.changed.with_mark(number.0 % 32);
        }
    }

    ghost told = { Prim.search rules };
}

// The changed entries too, in words of their own.
#[derive(Drop)]
struct Kept {
    changed: u32,
    entries: [u64; 67],
}

impl Entries for Kept {
    type Stop = Refused;

    ghost stands = { λ e. StandsKept e.entries e.changed };

    ghost refusal = { Some };

    ghost knows = { λ e number. e ≡ e };

    fn check_known(&self, _: TransNo) -> Result<(), Refused> {
        Ok(())
    }

    fn current(&self, words: &[u64], number: TransNo) -> Open {
        if self.changed.is_marked(number.0 % 32) {
            return host_words::entry(&self.entries, number);
        }
        host_words::entry(words, number)
    }

    fn note(&mut self, number: TransNo, _: Open, judged: Judged) {
        update::put_entry(&mut self.entries, number, judged.entry);
        self.changed = self.changed.with_mark(number.0 % 32);
    }

    ghost told = { Prim.search rules };
}

// Judges a frame's messages for a memory of size bytes, each against what those before it leave, up to the first that
// is refused or passes the end (5); 2 where the frame is too long to be read.
fn find<E: Entries>(
    entries: &mut E,
    words: &[u64],
    f: &[u8],
    size: usize,
) -> Result<Validated, E::Stop>
    requires { E.stands entries.old words.now (pair_of words.now).table }
    ensures found { IfOk result (λ v. Finds f.now words.now size (Ok v)) }
    ensures refused { IfErr result (λ stop. (r : Refused) → E.refusal stop ≡ Some r → Finds f.now words.now size (Err r)) }
{
    if wire::FRAME_MOST < f.len() {
        return Err(Refused::from(Reason::FrameTooLong).into());
    }
    let mut found = Validated {
        at: wire::FRAME_HEADER,
        sums: Sums {
            messages: 0,
            bytes: 0,
            completed: 0,
        },
        lowest: host_words::lowest(words),
        closed: host_words::closed(words),
    };
    loop {
        let place = found.sums.messages;
        let m = wire_read::message_at(f, found.at).ok_or(Refused {
            reason: Reason::PastFrameEnd,
            place,
        })?;
        let number = m.header.trans;
        entries.check_known(number)?;
        let o = entries.current(words, number);
        let judged = verdict::judge(found.lowest, found.closed, o, m.header, m.len, size).map_err(
            |reason| Refused { reason, place },
        )?;
        entries.note(number, o, judged);
        found = Validated {
            at: m.next,
            sums: Sums {
                messages: found.sums.messages + 1,
                bytes: found.sums.bytes + m.len as u32,
                completed: found.sums.completed + judged.done as u32,
            },
            lowest: judged.lowest,
            closed: judged.closed,
        };
        if !m.more {
            return Ok(found);
        }
    }
}

// Judges a frame's messages. At first changed entries are not kept, which is enough for a frame whose messages are of
// different transactions or each complete theirs; only where one is met again, all is judged anew with words to keep
// them in, whose clearing costs as much as a short frame.
pub(crate) fn validate(words: &[u64], f: &[u8], size: usize) -> Result<Validated, Refused>
    ensures { Finds f.now words.now size result }
{
    match find(&mut Apart { changed: 0 }, words, f, size) {
        Err(Stop::MetAgain) => find(
            &mut Kept {
                changed: 0,
                entries: [0; 67],
            },
            words,
            f,
            size,
        ),
        Err(Stop::Refusal(refused)) => Err(refused),
        Ok(found) => Ok(found),
    }
}
