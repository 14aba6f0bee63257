// Joins: the least entry that two entries fit, and the least note.
#![tactic(auto)]

// The least set that two sets of numbers lie in.
mod numbers;
// The least entry that two entries fit.
mod entries;
// The least note that two notes fit.
mod notes;

pub use entries::{join, unset};
pub use notes::join_note;
pub use numbers::join_sets;
