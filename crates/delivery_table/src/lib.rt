// Demand 3 for each card of a table, between its registering and its removal, over its region, and over restarts of the
// whole table. No code: specs/PerCard.antt and specs/OverRestarts.antt have the statements, the files of the same names
// in proofs/ a term of each. They assume the premises that stand there and no other.
#![tactic(auto)]
