// Rows grown from the entry row on: each word hands on, along its edges, what it makes of its row, until
// no row changes. The number of sweeps is bounded, whatever the words.
#![tactic(auto)]

// Sweeps over the words.
mod growing;

pub use growing::{SWEEPS, grow};
