// Items, of which what is printed about an answer consists: a name and values in decimal, one item a line
// (crates/about/src/lib.rt lists them).
#![tactic(auto)]

// A name and values on a line.
pub mod items;
// How a word is read.
pub mod readings;
// Entries, notes and rows.
pub mod entries;
// Fields and regions.
pub mod fields;
// The operands of a word, and what it reaches or makes with them.
pub mod operands;
