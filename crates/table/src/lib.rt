// Sixteen cards, one memory: a table of pairs at one host, each with its region of one memory. No code: specs/ has the
// definitions that code promises, proofs/ what holds of every list of calls on a table. They assume the premises that
// stand in specs/Isolation.antt and specs/Reopening.antt and no other.
#![tactic(auto)]
