// Marks: what a listing of kinds says of a register at a word, and what an instruction does to the
// marks of all 32. (Document 02, request 2.)
#![tactic(auto)]

// Marks, and two of them meeting.
pub mod kinds;
// What an instruction does to the marks.
pub mod effect;

// How many registers have a mark at a word.
pub const REGISTERS: usize = 32;
