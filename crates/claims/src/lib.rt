// The trial words of document 01 that hold of every row, stated for all of them, and a routine with a
// start that matches its entry row: specs/Claims.antt. The proofs are in proofs/.
#![tactic(auto)]
