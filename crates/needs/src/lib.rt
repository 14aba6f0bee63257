// What later words read of a row, and rows without what none reads.
#![tactic(auto)]

// What is read from a word on.
mod reading;
// Rows without what is not read.
mod shortening;

pub use reading::find_needs;
pub use shortening::shorten;
