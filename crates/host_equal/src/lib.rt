// Two hosts are one: from equal descriptions the first host and the plain one give the same answers with their runs,
// the same memory and equal descriptions on every sequence of frames. There is no code. The theorem of
// proofs/Equality.antt is over the definitions that the promises of both hosts cite, described by specs/Described.antt.
#![tactic(auto)]
