// What the flow pass refuses: a broken flow, with the edges of the word and what stands where they end; a
// word that would write a register of the caller, with the word whose slot it is.
use crate::Routine;
use crate::edges::show_slot;
use about_items::items::single;
use flow_code::transfers;
use flow_edges::edges::edge_of;
use v8::numbers::MOST_WORDS;
use v8::{Instruction, Reading, WordIndex};

impl Routine<'_> {
    fn show_edges(&self, at: usize, i: Instruction) {
        if MOST_WORDS <= at {
            return;
        }
        let index = WordIndex(at as u32);
        self.show_edge(edge_of(index, i, true), true);
        self.show_edge(edge_of(index, i, false), false);
    }

    // The flow of a word. A slot that is no transfer has one where a branch lands on it.
    pub fn show_flow(&self, at: usize) {
        single(b"words", self.words as u64);
        let x = self.reading_at(at);
        if self.slot_at(at) {
            show_slot(at, !transfers(x));
        }
        if let Reading::Read(i) = x {
            self.show_edges(at, i);
        }
    }

    // A word that would write a register of the caller: it is refused in a slot too, also in one that
    // never runs.
    pub fn show_written(&self, at: usize) {
        if self.slot_at(at) {
            show_slot(at, false);
        }
    }
}
