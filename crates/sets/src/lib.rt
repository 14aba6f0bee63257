// Sets of signed 32-bit numbers: their form, and inclusion. (Document 01, "Rows".)
#![tactic(auto)]

// The bounds of 32-bit numbers.
pub mod bounds;
// Operations on natural numbers.
pub mod natural;
// The form of a set, and inclusion.
mod form;

pub use form::{ended, fits_set, full, set_ok, single};

// The numbers from lo to hi that lie on the steps from lo. Signed numbers stand in excess form, 2^31
// more than the number.
#[derive(Clone, Copy, PartialEq, Eq)]
pub struct NumberSet {
    pub step: u8,
    pub lo: u32,
    pub hi: u32,
}
