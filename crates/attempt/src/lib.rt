// One attempt at the rows of a routine: those that are not given are found, as far as limits let entries
// grow, and all are checked.
#![tactic(auto)]

// The rows in draft, and what is written out of them.
mod tables;
// The attempt.
mod trying;

pub use tables::fill;
pub use trying::{Asked, Attempt};
