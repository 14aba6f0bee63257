// Rows grown from the entry row on: a word whose row has changed hands on, along its edges, what it makes
// of it, until no row changes or all sweeps are spent.
ghost use Rattle.std.specs.Prelude.{◌<◌};
ghost use Rattle.v8.specs.Numbers.{most_words};

use drafts::{Routine, carry, row_after};
use flow_edges::edges::edge_of;
use flow_edges::{Destination, Edge};
use merging::Draft;
use rows::Row;
use rows::notes::NOTE_COMPARISON;
use rules::is_sub;
use v8::numbers::MOST_WORDS;
use v8::{Instruction, Operation, Reading, WordIndex};

// How many sweeps there are in all, and how many of them are the last ones, in which a row that still
// grows on a way back says nothing any more.
pub const SWEEPS: u32 = 1254;

const LAST_SWEEPS: u32 = 254;

// The number that a word, read as x, compares with, by the row after it; none, where it does not compare.
fn compared_with(x: Reading, after: &Row) -> Option<u32> {
    match x {
        Reading::Read(Instruction::Plain(Operation::Alu { op, cc: true, .. }))
            if is_sub(op) && after.note.kind == NOTE_COMPARISON => { Some(after.note.number) }
        _ => None,
    }
}

// Remembers the number that the word at an index, read as x, compares with, if it does.
fn remember(draft: &mut Draft, at: usize, x: Reading, after: &Row) {
    if let Some(number) = compared_with(x, after)
        && at < MOST_WORDS
    {
        draft.bounds[at] = Some(number);
    }
}

// A row arrives at word d from word w. A row that is given stays.
fn arrive(routine: &Routine, draft: &mut Draft, d: WordIndex, row: Row, w: usize, spent: bool)
    requires { w < most_words }
{
    let i = d.0 as usize;
    if i < routine.count && !routine.given[i] && draft.merge(routine, i, row, w, spent) {
        draft.pending[i] = true;
    }
}

// Along an edge of word w, over its slot, goes the row after the word.
fn hand_on(routine: &Routine, draft: &mut Draft, w: usize, e: Edge, after: Row, spent: bool)
    requires { w < most_words }
{
    if !e.exists {
        return;
    }
    let slot = routine.slot_of(w);
    let Some(row) = carry(routine.policy, after, e, slot) else {
        return;
    };
    if e.slot {
        remember(draft, w + 1, slot, &row);
    }
    if let Destination::To(d) = e.to {
        arrive(routine, draft, d, row, w, spent);
    }
}

// Word w hands on what it makes of its row.
fn hand_all(routine: &Routine, draft: &mut Draft, w: usize, spent: bool)
    requires { w < most_words }
{
    let x = routine.readings[w];
    let Reading::Read(instruction) = x else {
        return;
    };
    let after = row_after(routine.policy, draft.rows[w], x);
    remember(draft, w, x, &after);
    for taken in [true, false] {
        let e = edge_of(WordIndex(w as u32), instruction, taken);
        hand_on(routine, draft, w, e, after, spent);
    }
}

// All words whose rows have changed hand on, in ascending order; whether there was one.
fn sweep(routine: &Routine, draft: &mut Draft, spent: bool) -> bool {
    let mut any = false;
    for w in 0..routine.count {
        if draft.pending[w] {
            draft.pending[w] = false;
            any = true;
            hand_all(routine, draft, w, spent);
        }
    }
    any
}

// Sweeps until no row changes, at most so many times; how many are left.
pub fn grow(routine: &Routine, draft: &mut Draft, sweeps: u32) -> u32 {
    let mut left = sweeps;
    // The count stays by hand: the edit sweeps_without_a_bound takes it away.
    while 0 < left {
        left -= 1;
        if !sweep(routine, draft, left < LAST_SWEEPS) {
            return left;
        }
    }
    left
}
