// Delayed transfers and the edges of each word: whether a slot runs, where a branch goes, and where
// control goes on. The check and the machine rest on these alike. (Document 01, "The word after a Bicc
// or return is its slot".)
#![tactic(auto)]

// Transfers, slots and targets.
pub mod transfer;
// The edges of a word.
pub mod edges;

use alu::Narrowing;
use v8::WordIndex;

// Where an edge ends: at a word, or at the caller.
#[derive(Clone, Copy)]
pub enum Destination {
    To(WordIndex),
    Caller,
}

// An edge of a word: whether there is one, whether the slot runs on it, where it goes, and by which
// class it narrows what was compared.
#[derive(Clone, Copy)]
pub struct Edge {
    pub exists: bool,
    pub slot: bool,
    pub to: Destination,
    pub narrowing: Narrowing,
}
