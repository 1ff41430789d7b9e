// Delivery over power failures of the host: the lists of the crate delivery with storings and crashes of the host in
// them. There is no code. The theorems of proofs/Demand.antt are those of specs/OverCrashes.antt, over
// specs/Crashes.antt; they assume the premises that stand there and no other.
#![tactic(auto)]
