// What each word does to a row, the conditions that it may break, and what a branch narrows. (Document
// 01, "What each word does to a row" and "One word's conditions".)
#![tactic(auto)]

use rows::{Entry, Note};

// What an instruction makes of its operands.
mod results;
// Where an access lies.
mod reaching;
// The operands of a word.
mod operand;
// The notes that words leave.
mod notes;
// Loads and stores.
mod accessing;
// What each word does to a row.
mod changes;
// What a comparison leaves of an entry.
mod narrowing;

pub use changes::change_of;
pub use narrowing::{narrow_entry, narrows};
pub use operand::operands_of;
pub use results::is_sub;

// The operands of a word: the registers that it names, and their entries.
#[derive(Clone, Copy)]
pub struct Operands {
    pub rs1: u8,
    pub first: Entry,
    pub rs2: u8,
    pub second: Entry,
}

// What an instruction makes of its operands: an entry, or the number of the condition that is broken.
// Like Reach and Change it carries a number of document 01, until the error type follows.
#[derive(Clone, Copy)]
pub enum Result {
    Gives(Entry),
    Fails(u8),
}

// Where an access lies: the place of its field in the policy, the scratch word that it is of, or the
// number of the condition that is broken and the register named.
#[derive(Clone, Copy)]
pub enum Reach {
    Inside(usize),
    Scratch(u8),
    Outside(u8, u8),
}

// What a word does to a row: it writes an entry, a register's or a scratch word's, and leaves a note;
// it keeps the row; or it breaks a condition, given by its number and the register named.
#[derive(Clone, Copy)]
pub enum Change {
    Writes(u8, Entry, Note),
    Keeps,
    Breaks(u8, u8),
}
