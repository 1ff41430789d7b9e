// Hexadecimal text: lines of digits as bytes, taken whole or piece by piece, and numbers of given widths as lines.
// Assumes nothing: any characters get an answer. No knowledge of frames.
#![tactic(auto)]

pub mod feed;
pub mod fields;
pub mod line;
pub mod pairs;
