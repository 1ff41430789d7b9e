// Reading acknowledgements: until when the card sends its frames again. The card is in words that are lent and changed
// in place. Assumes nothing of words and frame. It promises what card/specs/Card.antt says, read_acks, of the card that
// the words hold, and that a refused reading changes no word.
#![tactic(auto)]

pub mod cover;
pub mod finish;

ghost use Rattle.std.specs.Prelude.{◌≡◌};
ghost use Rattle.refusal.specs.Reason.{refusal_number};
ghost use Rattle.card.specs.Card.{acknowledged, read_acks};
ghost use Rattle.card_words.specs.Words.{card_of, Becomes, Steps, or_other_length};

use bitmap::Bitmap;
use card_words::{CARD_WORDS, Head, update};
use cover::Range;
use finish::Released;
use refusal::Reason;
use seq::Serial;
use wire_read::layout;

// Acknowledges a range: frames are released, and with them transactions finish.
fn acknowledge(words: &mut [u64], range: Range)
    ensures { Becomes words.old words.new
        (acknowledged (card_of words.old) range.start.0 range.count) }
{
    let h = card_words::head_of(words);
    let acked = cover::acknowledged_marks(words, range);
    let run = acked.run_length();
    let base = h.base.advance(run as u16);
    let finished = finish::finished_marks(words, Released { from: h.base, base });
    let gone = finished.run_length();
    update::put_head(
        words,
        Head {
            acked: acked.shifted(run),
            base,
            lowest: h.lowest.advance(gone),
            finished: finished.shifted(gone),
            ..h
        },
    );
}

// Reads the acknowledgements of an arriving frame.
pub fn read_acknowledgements(words: &mut [u64], f: &[u8]) -> Result<(), Reason>
    ensures refused { refusal_number result ≡ or_other_length words.old (read_acks (card_of words.old) f.now).refusal }
    ensures steps { Steps words.old words.new (refusal_number result)
        (read_acks (card_of words.old) f.now).card }
{
    if words.len() != CARD_WORDS {
        return Err(Reason::OtherLength);
    }
    let h = card_words::head_of(words);
    layout::check(f, h.own, h.peer)?;
    let head = wire_read::frame_header(f);
    acknowledge(
        words,
        Range {
            start: head.ackstart,
            count: head.ackcount,
        },
    );
    Ok(())
}
