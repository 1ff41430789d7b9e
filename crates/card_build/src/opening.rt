// Opening a card in 85 words that a caller lends. Assumes nothing of the words and of the slot buffer, which is lent
// for its length. It promises the refusal, by the decoding of card_words/specs/Words.antt which card the words hold
// then, and that a buffer of another length is left as it was.
ghost use Rattle.std.specs.Prelude.{◌≡◌};
ghost use Rattle.refusal.specs.Reason.{refusal_number};
ghost use Rattle.card.specs.Card.{card_refusal, open_card};
ghost use Rattle.card_words.specs.Words.{Leaves, or_other_length};

use card_words::{CARD_WORDS, Head, update};
use refusal::Reason;
use seq::{FrameNo, TransNo};

// Refuses an ID of 0, and a frame limit that is none or doesn't fit the slots.
#[tactic(auto, unfolding(card::specs::Card::card_refusal))]
fn check_opening(own: u16, peer: u16, limit: usize, slots: &[u8]) -> Result<(), Reason>
    ensures { refusal_number result ≡ card_refusal own peer limit slots.now }
{
    if own == 0 || peer == 0 {
        return Err(Reason::IdZero);
    }
    if !card::is_fitting(limit, slots) {
        return Err(Reason::BadLimitOrSlots);
    }
    Ok(())
}

// Opens a card with a frame limit in these words. A refused opening leaves a card with both IDs and the limit 0.
pub fn open_card(
    w: &mut [u64],
    own: u16,
    peer: u16,
    limit: usize,
    slots: &[u8],
) -> Result<(), Reason>
    ensures refused { refusal_number result ≡ or_other_length w.old (open_card own peer limit slots.now).refusal }
    ensures leaves { Leaves w.old w.new (open_card own peer limit slots.now).card }
{
    if w.len() != CARD_WORDS {
        return Err(Reason::OtherLength);
    }
    w.fill(0);
    check_opening(own, peer, limit, slots)?;
    update::put_head(
        w,
        Head {
            own,
            peer,
            limit: limit as u16,
            used: 0,
            last: 0,
            acked: 0,
            next: FrameNo(0),
            base: FrameNo(0),
            upcoming: TransNo(0),
            lowest: TransNo(0),
            finished: 0,
        },
    );
    Ok(())
}
