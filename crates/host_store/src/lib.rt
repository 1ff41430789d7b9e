// A pair in lent words stored as text, and a text read back into words. Assumes nothing of words, buffer and text. It
// promises the form and the refusals of the crate host_stored.
#![tactic(auto)]

pub mod restore;
pub mod store;
