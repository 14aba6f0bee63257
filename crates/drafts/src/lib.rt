// Rows in draft: found, and not yet checked. A row whose r0's entry is unset is not there. Here are rows
// as a whole and their writing, and what becomes of a row after a word and along an edge.
#![tactic(auto)]

// Whether a row is there, whether it fits another, and rows that say little.
mod standing;
// Rows written to bytes.
mod writing;
// A routine whose rows are looked for.
mod routine;
// What a word makes of a row, even where it is refused.
mod hoping;
// A row along an edge.
mod carrying;

pub use carrying::{carry, leads_to, narrowed};
pub use hoping::row_after;
pub use routine::Routine;
pub use standing::{fits_row, is_there, no_note, no_row, unset_row};
pub use writing::write_row;

// How many entries the rows of the most words have.
pub const TABLE_ENTRIES: usize = 4864;

// r8, which has the result.
pub const RESULT: u8 = 8;
