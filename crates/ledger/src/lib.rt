// The subscriber ledger, without code: specs/ has what readings and blocks do to a ledger and what a history of blocks
// should leave in it, proofs/ shows that it does. The crate ledger_words keeps a ledger in lent words.
#![tactic(auto)]
