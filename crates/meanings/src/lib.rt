// What the marks of a listing of kinds say of every run: specs/Meaning.antt. The proofs are in
// proofs/.
#![tactic(auto)]
