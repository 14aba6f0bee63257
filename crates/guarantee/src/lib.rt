// The running guarantee, what a run of an accepted routine does: specs/Guarantee.antt. (Document 01,
// "Demand 3, the running guarantee".) The proof is in proofs/Whole.antt.
#![tactic(auto)]
