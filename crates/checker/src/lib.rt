// The check of a routine: the pass over its words and their edges, each pass of document 01 in its order,
// and the answer. (Document 01, "Order of the check, and its numbers".)
#![tactic(auto)]

// Rows of words, and what is asked of a row that arrives.
mod arrival;
// The edges of a word.
mod edges;
// The words' pass.
mod looking;
// The check.
mod checking;

pub use checking::check;
pub use edges::change_by;
