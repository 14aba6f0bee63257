// The row of a stray: of what its edges, the word before and the entry row give, the one with which it fares
// best.
ghost use Rattle.std.specs.Prelude.{◌<◌};
ghost use Rattle.v8.specs.Numbers.{most_words};

use crate::faring::{Fate, fares};
use drafts::{RESULT, Routine, is_there, leads_to, no_row, row_after, unset_row};
use flow_code::transfers;
use flow_edges::Edge;
use flow_edges::edges::edge_of;
use flow_edges::transfer::LINK;
use joins::unset;
use rows::entries::{RETURN_ADDRESS, UNSET, constant};
use rows::notes::{NOTE_UNSET, codes_set, fits_note};
use rows::{Entry, Row, fits, row_with};
use std::array;
use v8::numbers::MOST_WORDS;
use v8::{Instruction, Reading, WordIndex};

// An entry, if it fits the goal's; otherwise that.
fn entry_towards(e: Entry, goal: Entry) -> Entry {
    if fits(e, goal) { e } else { goal }
}

// A row with the goal's entries where its own do not fit them.
fn towards(row: &Row, goal: &Row) -> Row {
    let fitting = fits_note(row.note, goal.note);
    Row {
        entries: array::from_fn(|i| entry_towards(row.entries[i], goal.entries[i])),
        note: if fitting { row.note } else { goal.note },
    }
}

// An entry, or 0 where it is unset.
fn entry_or_zero(e: Entry) -> Entry {
    if e.kind == UNSET { constant(0) } else { e }
}

// A row with 0 in the registers that are unset, and the codes set.
fn with_zeros(row: &Row) -> Row {
    let known = row.note.kind != NOTE_UNSET;
    Row {
        entries: row.entries.map(entry_or_zero),
        note: if known { row.note } else { codes_set() },
    }
}

// Whether a word is read as the return.
fn returns(x: Reading) -> bool {
    matches!(x, Reading::Read(Instruction::Return))
}

// What a return asks for: r8 as the result entry has it, and the return address in r15.
fn at_return(res: Entry) -> Row {
    let row = unset_row();
    let mut link = unset();
    link.kind = RETURN_ADDRESS;
    let homeward = row_with(row, LINK, link, row.note);
    row_with(homeward, RESULT, res, row.note)
}

// What the row of word u is to fit, as far as it can: the next row that is there, from that word on, or
// what a return before it asks for.
fn goal_of(routine: &Routine, rows: &[Row; MOST_WORDS], u: usize) -> Row {
    for v in u..routine.count {
        if is_there(&rows[v]) {
            return rows[v];
        }
        if routine.examined[v] && returns(routine.readings[v]) {
            return at_return(routine.res);
        }
    }
    unset_row()
}

// The rows that are tried for word u: those that there are, what the row is to fit as far as it can, and the
// best so far with how the word fares with it.
#[derive(Clone, Copy)]
struct Choice<'a> {
    routine: &'a Routine<'a>,
    rows: &'a [Row; MOST_WORDS],
    u: usize,
    goal: Row,
    best: Option<(Fate, Row)>,
    ghost within: { u < most_words },
}

impl Choice<'_> {
    // Tries a row: if the word fares better than with the best so far, that is now the best.
    fn try_row(&mut self, row: Row) {
        if let Some((Fate::Fits, _)) = self.best {
            return;
        }
        let fate = fares(self.routine, self.rows, self.u, row);
        if let Some((least, _)) = self.best
            && least <= fate
        {
            return;
        }
        self.best = Some((fate, row));
    }

    // Tries what a source gives: with the goal's entries, with zeros too, and as it is.
    fn try_source(&mut self, source: Row) {
        let mixed = towards(&source, &self.goal);
        self.try_row(mixed);
        self.try_row(with_zeros(&mixed));
        self.try_row(source);
    }

    // Tries what comes along an edge of word p, as if values passed.
    fn try_edge(&mut self, p: usize, e: Edge)
        requires { p < most_words }
    {
        if !leads_to(e, self.u) {
            return;
        }
        let routine = self.routine;
        let mut source = row_after(routine.policy, self.rows[p], routine.readings[p]);
        if e.slot {
            source = row_after(routine.policy, source, routine.slot_of(p));
        }
        self.try_source(source);
    }

    // Tries what comes along the edges of word p.
    fn try_from(&mut self, p: usize)
        requires { p < most_words }
    {
        if !is_there(&self.rows[p]) {
            return;
        }
        if let Reading::Read(instruction) = self.routine.readings[p] {
            for taken in [true, false] {
                self.try_edge(p, edge_of(WordIndex(p as u32), instruction, taken));
            }
        }
    }

    // Tries the row of the transfer before word u, whose slot stands between.
    fn try_before(&mut self) {
        if self.u < 2 {
            return;
        }
        let p = self.u - 2;
        if transfers(self.routine.readings[p]) && is_there(&self.rows[p]) {
            self.try_source(self.rows[p]);
        }
    }
}

// The row for word u, which nothing reaches, with which it fares best.
pub fn strand(routine: &Routine, rows: &[Row; MOST_WORDS], u: usize) -> Row
    requires { u < most_words }
{
    let goal = goal_of(routine, rows, u);
    let mut choice = Choice {
        routine,
        rows,
        u,
        goal,
        best: None,
    };
    for p in 0..routine.count {
        choice.try_from(p);
    }
    choice.try_before();
    choice.try_source(routine.entry);
    choice.try_row(goal);
    choice.try_row(unset_row());
    match choice.best {
        Some((_, row)) => row,
        None => no_row(),
    }
}
