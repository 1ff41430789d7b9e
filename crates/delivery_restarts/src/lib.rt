// Delivery over restarts of the host: the lists of the crate delivery with storings of the host's place and returns to
// it. There is no code. The theorem of proofs/Demand.antt is that of specs/OverRestarts.antt, over specs/Restarts.antt;
// it assumes the premises that stand there and no other.
#![tactic(auto)]
