// Accesses to memory: what one needs of a field, and where it lies. The machine and the check rest on
// these alike. (Document 01, refusals 7, 8, 10 and 103; document 02, request 7.)
#![tactic(auto)]

// What an access needs of a field.
mod serve;
// Where an access lies.
pub mod locate;

pub use locate::locate_access;
pub use serve::{addend_of, allowed, is_word, serves_element, width_of};
use v8::ByteOffset;

// Where an access lies: at an offset of a region, in a field that allows it; at a scratch word of the
// frame; or nowhere. Three cases, so that it is no `Option`.
#[derive(Clone, Copy)]
pub enum Located {
    At(u8, ByteOffset),
    Scratch(u8),
    Nowhere,
}
