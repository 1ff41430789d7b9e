// Bytes counted at a card, delivered over a network that loses, repeats and reorders, are the bytes charged: for one
// card, over restarts and over power failures of the host. No code: specs/Charged.antt, specs/OverRestarts.antt and
// specs/OverCrashes.antt have the statements, the files of the same names in proofs/ a term of each.
#![tactic(auto)]
