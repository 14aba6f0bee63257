// Rows without what no later word reads, so that they say no more than they need.
use crate::reading::{CODES, has};
use drafts::{Routine, no_note, unset_row};
use joins::unset;
use rows::Row;
use rows::geometry::ENTRIES;
use v8::numbers::MOST_WORDS;

// A row without what is not needed.
fn shorten_row(row: &mut Row, need: u64) {
    for i in 1..ENTRIES {
        if !has(need, i as u8) {
            row.entries[i] = unset();
        }
    }
    if !has(need, CODES) {
        row.note = no_note();
    }
}

// All rows without what is not needed; those of words that are not examined are all unset.
pub fn shorten(routine: &Routine, need: &[u64; MOST_WORDS], rows: &mut [Row; MOST_WORDS]) {
    for w in 0..routine.count {
        if routine.examined[w] {
            shorten_row(&mut rows[w], need[w]);
        } else {
            rows[w] = unset_row();
        }
    }
}
