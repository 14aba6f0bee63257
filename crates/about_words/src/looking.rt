// What the last pass refuses at a word: a condition of its own or of its slot, or a row at the end of an
// edge.
ghost use Rattle.std.specs.Prelude.{◌<◌};
ghost use Rattle.v8.specs.Numbers.{most_words};

use crate::Routine;
use crate::along::{OnWay, along, made_by, show_narrowing};
use crate::edges::show_slot;
use about_items::entries::show_row;
use about_items::items::{bare, single};
use about_items::operands::show_word_in;
use flow_edges::Edge;
use flow_edges::edges::edge_of;
use rows::Row;
use v8::numbers::MOST_WORDS;
use v8::{Instruction, Reading, WordIndex};

impl Routine<'_> {
    // Whether an edge is refused along which a word hands on a row: at its slot, read as x, or where it
    // ends.
    fn is_refused(&self, e: Edge, x: Reading, row: Row) -> bool {
        if !e.exists {
            return false;
        }
        match along(self.policy, e, x, row) {
            Some(
                OnWay {
                    made: Some(made),
                    ..
                },
            ) => self.is_refused_at(e.to, made),
            Some(OnWay { made: None, .. }) => true,
            None => false,
        }
    }

    // An edge that is refused.
    fn show_refused(&self, e: Edge, x: Reading, row: Row) {
        let way = along(self.policy, e, x, row).unwrap_or(OnWay {
            handed: row,
            made: Some(row),
        });
        show_narrowing(e.narrowing, row, way.handed);
        bare(b"handed");
        show_row(way.handed);
        match way.made {
            Some(made) => self.show_arrival(e.to, made),
            None => show_word_in(self.policy, way.handed, x),
        }
    }

    // Whether an edge of an instruction is refused, the taken one or the other; its slot is the next word.
    fn is_way_refused(&self, at: usize, i: Instruction, taken: bool, row: Row) -> bool
        requires { at < most_words }
    {
        let e = edge_of(WordIndex(at as u32), i, taken);
        self.is_refused(e, self.reading_at(at + 1), row)
    }

    // The row that an instruction makes; the row given where it breaks a condition.
    fn row_after(&self, i: Instruction, before: Row) -> Row {
        made_by(self.policy, before, Reading::Read(i)).unwrap_or(before)
    }

    // The edge of an instruction that is refused, the taken one before the other.
    fn show_way(&self, at: usize, i: Instruction, before: Row)
        requires { at < most_words }
    {
        let row = self.row_after(i, before);
        let taken = self.is_way_refused(at, i, true, row);
        let e = edge_of(WordIndex(at as u32), i, taken);
        self.show_edge(e, taken);
        self.show_refused(e, self.reading_at(at + 1), row)
    }

    // The row of a word; that of word 0 where there is no such word.
    fn row_or_first(&self, at: usize) -> Option<Row> {
        self.row_at(at).or_else(|| self.row_at(0))
    }

    // Whether a refusal at a slot is one of the word before it, by what that hands on; if not, it is one of
    // the slot's own row.
    fn is_by_transfer(&self, at: usize) -> bool
        requires { at < most_words }
    {
        if at < 1 {
            return false;
        }
        let from = at - 1;
        let Some(before) = self.row_or_first(from) else {
            return false;
        };
        let Reading::Read(i) = self.reading_at(from) else {
            return false;
        };
        let row = self.row_after(i, before);
        self.is_way_refused(from, i, true, row) || self.is_way_refused(from, i, false, row)
    }

    // The row of a word, and what is refused there: an edge, or the word itself.
    fn show_looked_at(&self, at: usize, edge: bool)
        requires { at < most_words }
    {
        let Some(row) = self.row_or_first(at) else {
            return;
        };
        single(b"row", at as u64);
        show_row(row);
        let x = self.reading_at(at);
        if !edge {
            return show_word_in(self.policy, row, x);
        }
        if let Reading::Read(i) = x {
            self.show_way(at, i, row);
        }
    }

    // A refusal at a word: by its own conditions, or of the word before it, whose slot it is, or of its
    // edges. A slot that a branch lands on is looked at both ways, that of the word before it first.
    pub fn show_looked(&self, at: usize, edge: bool) {
        if MOST_WORDS <= at || self.row_at(0).is_none() {
            return;
        }
        if !self.slot_at(at) {
            return self.show_looked_at(at, edge);
        }
        let handed = !edge && self.is_by_transfer(at);
        show_slot(at, !handed);
        if handed {
            return self.show_looked_at(at.saturating_sub(1), true);
        }
        self.show_looked_at(at, edge)
    }
}
