// An edge of a word, and where it ends; slots.
use crate::Routine;
use about_items::items::{bare, done, flag, single, value};
use flow_code::transfers;
use flow_edges::{Destination, Edge};
use output::print;

// The word that a slot is of; the slot is looked at as an ordinary word, or with what that hands on.
pub fn show_slot(at: usize, ordinary: bool) {
    if at < 1 {
        return;
    }
    let before = (at - 1) as u64;
    if ordinary {
        return single(b"landed", before);
    }
    single(b"slot", before)
}

impl Routine<'_> {
    // Whether a word is a slot, examined as an ordinary word too or not: the word before it is a transfer.
    pub fn slot_at(&self, at: usize) -> bool {
        1 <= at && transfers(self.reading_at(at - 1))
    }

    // Where an edge ends, and whether a slot stands there.
    fn show_end(&self, to: Destination) {
        match to {
            Destination::To(next) => {
                let at = next.0 as usize;
                print(b"to");
                value(at as u64);
                flag(at < self.words);
                flag(self.slot_at(at));
                done();
            }
            Destination::Caller => bare(b"caller"),
        }
    }

    // An edge: whether it is the taken one, whether there is one, and whether its slot runs.
    pub fn show_edge(&self, e: Edge, taken: bool) {
        print(b"edge");
        flag(taken);
        flag(e.exists);
        flag(e.slot);
        done();
        self.show_end(e.to);
    }
}
