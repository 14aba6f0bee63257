// What a word sends: its marks to its slot, and along its edges what they are after it (specs/Rules.antt).
ghost use Rattle.std.specs.Prelude.{◌≡◌, ◌<◌, ◌≤◌};
ghost use Rattle.v8.specs.Numbers.{most_words};
ghost use Rattle.v8.specs.declared.Reading.TheVariants.{Read};
ghost use Rattle.lister_rules.specs.Table.{marks_at};
ghost use Rattle.lister_rules.specs.Rules.{to_word, sent_along, shown, sends, sends_reached, raised_by, raised_by_all};

use crate::TABLE_MARKS;
use crate::table::{is_reached, marks_at, raise_at};
use flow_edges::edges::edge_of;
use flow_edges::transfer::is_transfer;
use flow_edges::{Destination, Edge};
use marks::REGISTERS;
use marks::effect::{marks_after, marks_after_word};
use v8::numbers::MOST_WORDS;
use v8::{Instruction, Reading, WordIndex};

// A table that is being raised, for `count` words. A word that is raised has its own marks to pass on,
// and is flagged; `next` is the lowest that may have some. The bound of `count` stands in the contracts: as
// a ghost field it would leave the fields without names in the invariant of the loop that raises.
#[derive(Clone, Copy)]
pub struct Work {
    pub table: [u8; TABLE_MARKS],
    pub pending: [bool; MOST_WORDS],
    pub count: usize,
    pub next: usize,
}

impl Work {
    ghost use Rattle.lister_rules.specs.Work.{Worked};

    // Marks arrive at a word.
    fn send_to(&mut self, to: WordIndex, marks: &[u8; REGISTERS])
        requires { self.old.count ≤ most_words }
        ensures table { self.new.table
            ≡ raised_by self.old.table (to_word self.old.count to.0 marks.now) }
        ensures worked { Worked self.old self.new }
    {
        let w = to.0 as usize;
        if self.count <= w {
            return;
        }
        if raise_at(&mut self.table, w, marks) {
            self.pending[w] = true;
            self.next = self.next.min(w);
        }
    }

    // Marks go along an edge, over the slot, read as x, where that runs.
    fn send_along(&mut self, x: Reading, e: Edge, marks: [u8; REGISTERS])
        requires { self.old.count ≤ most_words }
        ensures table { self.new.table
            ≡ raised_by self.old.table (sent_along self.old.count x e marks) }
        ensures worked { Worked self.old self.new }
    {
        if !e.exists {
            return;
        }
        if let Destination::To(w) = e.to {
            if e.slot {
                return self.send_to(w, &marks_after_word(marks, x));
            }
            self.send_to(w, &marks)
        }
    }

    // A transfer's slot shows its marks.
    fn show(&mut self, at: WordIndex, x: Instruction, marks: &[u8; REGISTERS])
        requires { (at.0 < most_words) × (self.old.count ≤ most_words) }
        ensures table { self.new.table
            ≡ raised_by self.old.table (shown self.old.count at.0 x marks.now) }
        ensures worked { Worked self.old self.new }
    {
        if is_transfer(x) {
            self.send_to(WordIndex(at.0 + 1), marks);
        }
    }

    // All that an instruction sends, its slot being read as `slot`.
    fn send_all(&mut self, at: WordIndex, x: Instruction, slot: Reading, marks: [u8; REGISTERS])
        requires { (at.0 < most_words) × (self.old.count ≤ most_words) }
        ensures table { self.new.table
            ≡ raised_by_all self.old.table (sends self.old.count at.0 (Read x) slot marks) }
        ensures worked { Worked self.old self.new }
    {
        self.show(at, x, &marks);
        let after = marks_after(marks, x);
        self.send_along(slot, edge_of(at, x, true), after);
        self.send_along(slot, edge_of(at, x, false), after);
    }

    // All that a word sends, if it is reached, being read as x and its slot as `slot`.
    pub fn pass_on(&mut self, at: WordIndex, x: Reading, slot: Reading)
        requires { (at.0 < most_words) × (self.old.count ≤ most_words) }
        ensures table { self.new.table
            ≡ raised_by_all
            self.old.table
            (sends_reached self.old.count at.0 x slot (marks_at self.old.table at.0)) }
        ensures worked { Worked self.old self.new }
    {
        let marks = marks_at(&self.table, at.0 as usize);
        if !is_reached(&marks) {
            return;
        }
        if let Reading::Read(instruction) = x {
            self.send_all(at, instruction, slot, marks);
        }
    }
}
