// Rows made smaller again: each anew from what comes in, while that fits what it was. This mends what was
// made of an entry that had been widened too far.
#![tactic(auto)]

// What comes in at a word.
mod gathering;
// The rounds.
mod lowering;

pub use lowering::lower;
