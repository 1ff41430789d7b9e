// What the card sends: a held frame shown, and the choice of what goes out next. Assumes nothing of words and buffers.
// It promises what card/specs/Card.antt says of the card that the words hold, and changes nothing.
#![tactic(auto)]

pub mod choose;
pub mod show;
