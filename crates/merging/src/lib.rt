// Rows merged: what a word hands on is taken up by the row of another. An entry that grows on a way back is
// widened, so that it stops growing.
#![tactic(auto)]

// An entry that grows on a way back.
mod widening;
// A row taken up by another.
mod merging;

pub use merging::{Draft, Growth, NOT_GROWN, Way};
