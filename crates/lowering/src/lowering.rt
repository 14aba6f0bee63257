// The rounds: each row anew from what comes in, while that fits what it was.
use crate::gathering::take_all;
use drafts::{Routine, fits_row, is_there, no_row};
use rows::Row;
use v8::numbers::MOST_WORDS;

// How many rounds there are at most.
const ROUNDS: u32 = 16;

// A row, where nothing or less comes in than it was: that; whether it has changed.
fn lower_to(row: &mut Row, fresh: Row) -> bool {
    if !is_there(&fresh) {
        *row = no_row();
        return true;
    }
    if !fits_row(&fresh, row) || fits_row(row, &fresh) {
        return false;
    }
    *row = fresh;
    true
}

// Each row that is not given, once; whether one has changed.
fn lower_once(routine: &Routine, rows: &mut [Row; MOST_WORDS]) -> bool {
    let mut changed = false;
    for w in 0..routine.count {
        if is_there(&rows[w]) && !routine.given[w] {
            let before = if w == 0 { routine.entry } else { no_row() };
            let fresh = take_all(routine, rows, w, before);
            changed |= lower_to(&mut rows[w], fresh);
        }
    }
    changed
}

// Makes rows smaller, until a round changes nothing.
pub fn lower(routine: &Routine, rows: &mut [Row; MOST_WORDS]) {
    for _ in 0..ROUNDS {
        if !lower_once(routine, rows) {
            return;
        }
    }
}
