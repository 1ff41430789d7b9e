// The replay of a whole text (specs/Text.antt), the replay from fragments of one (specs/Feeding.antt), and that any way
// to cut a text gives the same answers (specs/Claim.antt, proofs/Fragments.antt). The code is in the crate replay_feed.
#![tactic(auto)]

pub mod answer;
pub mod line;
pub mod place;

use host::Answer;
use refusal::Reason;

// What a call says of a line: its answer, nothing where no line ended, or why the call is refused.
pub type Reply = Result<Option<Answer>, Reason>;
