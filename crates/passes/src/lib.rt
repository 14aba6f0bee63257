// The passes of the check that go by the words, or by rows alone: the form of rows, what words are read
// as, their flow, and the entry row. The listing of kinds shares them.
// (Document 01, "Order of the check, and its numbers".)
#![tactic(auto)]

use v8::WordIndex;

// Answers.
pub mod answers;
// The passes over the words, and the entry row.
mod words;

pub use words::{entry_pass, flow_pass, read_pass, row_pass};

// An answer: the number of the first condition that is broken, the word and the register named;
// accepted is 0 0 0. The passes compare the number with that, until the error type follows.
#[derive(Clone, Copy)]
pub struct Answer {
    pub number: u8,
    pub word: WordIndex,
    pub register: u8,
}
