// What comes in at a word: the least row that all the rows fit that other words hand on to it.
ghost use Rattle.std.specs.Prelude.{◌<◌};
ghost use Rattle.v8.specs.Numbers.{most_words};

use drafts::{Routine, carry, is_there, leads_to, row_after};
use flow_edges::edges::edge_of;
use joins::{join, join_note};
use rows::Row;
use std::array;
use v8::numbers::MOST_WORDS;
use v8::{Reading, WordIndex};

// The least row that two rows fit.
fn join_rows(a: &Row, b: &Row) -> Row {
    Row {
        entries: array::from_fn(|i| join(a.entries[i], b.entries[i])),
        note: join_note(a.note, b.note),
    }
}

// A row comes in beside what has come in before, if anything has.
fn take_in(fresh: &Row, row: Row) -> Row {
    if is_there(fresh) {
        return join_rows(fresh, &row);
    }
    row
}

// What has come in at word w, once what word p hands on has come in too.
fn take_from(routine: &Routine, rows: &[Row; MOST_WORDS], p: usize, w: usize, before: Row) -> Row
    requires { p < most_words }
{
    let x = routine.readings[p];
    let Reading::Read(instruction) = x else {
        return before;
    };
    let mut fresh = before;
    for taken in [true, false] {
        let e = edge_of(WordIndex(p as u32), instruction, taken);
        if leads_to(e, w) {
            let after = row_after(routine.policy, rows[p], x);
            if let Some(row) = carry(routine.policy, after, e, routine.slot_of(p)) {
                fresh = take_in(&fresh, row);
            }
        }
    }
    fresh
}

// What has come in at word w, once all that words hand on has come in too.
pub fn take_all(routine: &Routine, rows: &[Row; MOST_WORDS], w: usize, before: Row) -> Row {
    let mut fresh = before;
    for p in 0..routine.count {
        if is_there(&rows[p]) {
            fresh = take_from(routine, rows, p, w, fresh);
        }
    }
    fresh
}
