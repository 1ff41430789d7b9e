// A host's pair as a stored text: the form's numbers. What storing answers, the text and its reading are in
// specs/Form.antt, which pairs can be stored in specs/Storable.antt. proofs/OneText.antt shows that one pair has one
// text.
#![tactic(auto)]

// The version that is written and read.
pub const VERSION: u8 = 1;

// Characters of the first line, and of an open transaction's.
pub const HEAD: usize = 47;

pub const OPEN: usize = 33;
