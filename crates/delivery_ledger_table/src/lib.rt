// Bytes counted are the bytes charged for each card of a table, and for one ledger that several cards of a table feed.
// No code: specs/PerCard.antt, specs/Together.antt and specs/OneCardEach.antt have the statements, and the files of
// the same names in proofs/ a term of each.
#![tactic(auto)]
