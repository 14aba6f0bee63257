// Rows: what each register holds at a word, read from bytes; their form, and what fits. (Document 01,
// "Rows".)
#![tactic(auto)]

use crate::geometry::ENTRIES;
use sets::NumberSet;

// How a row lies in bytes, and how its places are named.
pub mod geometry;
// What one register holds.
pub mod entries;
// What is known of the condition codes.
pub mod notes;
// Entries, notes and rows read from bytes.
mod reading;
// An entry of a row.
mod registers;
// The form of a row in bytes, and whether one row fits another.
mod passes;

pub use entries::{field_entry, fits};
pub use passes::{form_fault, formed_at, misfit, scratch_unset};
pub use reading::{entry_formed, read_entry, read_row};
pub use registers::{entry_at, row_with};

// What a register holds, by its kind: 0 unset; 1 a number of the set; 2 the address of the region's
// start plus an offset of the set; 3 the address of the region's start, or null; 4 the return
// address; 5 the frame address.
#[derive(Clone, Copy)]
pub struct Entry {
    pub kind: u8,
    pub region: u8,
    pub set: NumberSet,
}

// What is known of the condition codes, by its kind: 0 unset; 1 set; 2 those that SUBcc gives for the
// register's present value and the number, which stands in excess form.
#[derive(Clone, Copy, PartialEq, Eq)]
pub struct Note {
    pub kind: u8,
    pub register: u8,
    pub number: u32,
}

// The entries of r0 to r31 and of the six scratch words, and the note.
#[derive(Clone, Copy)]
pub struct Row {
    pub entries: [Entry; ENTRIES],
    pub note: Note,
}
