// The rules of the listing of kinds: a table of marks, what each word sends where, and how the table is
// raised by it. (Document 02, request 2.)
#![tactic(auto)]

// A table of marks.
pub mod table;
// What a word sends.
pub mod sending;

// How many marks a table has: 32 for each of 128 words.
pub const TABLE_MARKS: usize = 4096;
