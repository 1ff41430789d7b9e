// The functions that are exported to C: a frame's layout, both ends, a table of cards, a subscriber ledger, and the
// replay from fragments. They take numbers, byte slices and lent words, assume nothing of them, and promise what the
// face promises.
#![tactic(auto)]

pub mod billing_end;
pub mod card_end;
pub mod cards_end;
pub mod frame;
pub mod host_by_value;
pub mod host_end;
pub mod replaying;
