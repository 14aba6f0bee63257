// What a refusal is about that names no word: bytes that are no bundle, a policy that is refused, rows and
// entries that are badly formed, and where their bytes stand in the bundle.
#![tactic(auto)]

// Bytes that are no bundle.
mod unopened;
// A policy that is refused.
mod adding;
// Badly formed rows and entries.
mod form;

pub use adding::show_adds;
pub use form::{show_broken_row, show_shape};
pub use unopened::show_no_bundle;
