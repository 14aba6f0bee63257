// What a word hands on is taken up by the row of another: entry by entry, the least that both fit; on a
// way back an entry that grows is widened.
ghost use Rattle.std.specs.Prelude.{◌<◌, ◌≡◌};
ghost use Rattle.v8.specs.Numbers.{most_words};
ghost use Rattle.rows.specs.Geometry.{entry_count};
ghost use Rattle.merging.specs.Draft.{new_draft};

use crate::widening::{Bounds, widen_entry};
use drafts::{Routine, TABLE_ENTRIES, fits_row, is_there, no_row, unset_row};
use joins::{join, join_note};
use rows::geometry::ENTRIES;
use rows::notes::fits_note;
use rows::{Entry, Note, Row, fits};
use v8::numbers::MOST_WORDS;

// A way back on which an entry grows with nothing to bound it: how often it had grown the first time, and
// the last word of the loop.
#[derive(Clone, Copy)]
pub struct Way {
    pub first: u8,
    pub word: u8,
}

// How often an entry has grown on ways back, as far as that is counted; and the last way back on which it
// did so with nothing to bound it.
#[derive(Clone, Copy)]
pub struct Growth {
    pub times: u8,
    pub way: Option<Way>,
}

// The growth of an entry that has not grown.
pub const NOT_GROWN: Growth = Growth {
    times: 0,
    way: None,
};

// Rows in draft as they grow: the rows themselves; the words whose rows have changed; the number that each
// word compares with, if it does; and the growth of each entry.
#[derive(Clone, Copy)]
pub struct Draft {
    pub rows: [Row; MOST_WORDS],
    pub pending: [bool; MOST_WORDS],
    pub bounds: [Option<u32>; MOST_WORDS],
    pub growths: [Growth; TABLE_ENTRIES],
}

impl Draft {
    // No row is there. None has changed, no word compares with a number, and no entry has grown.
    pub fn new() -> Draft
        ensures { result ≡ new_draft }
    {
        Draft {
            rows: [no_row(); MOST_WORDS],
            pending: [false; MOST_WORDS],
            bounds: [None; MOST_WORDS],
            growths: [NOT_GROWN; TABLE_ENTRIES],
        }
    }

    // Entry i of word d takes up what comes from word w; whether it has changed.
    fn merge_entry(&mut self, routine: &Routine, d: usize, i: usize, comes: Entry, w: usize) -> bool
        requires { (d < most_words) × (w < most_words) × (i < entry_count) }
    {
        let held = self.rows[d].entries[i];
        if fits(comes, held) {
            return false;
        }
        let pair = ENTRIES * d + i;
        let times = self.growths[pair].times;
        if routine.limits[pair].is_some_and(|most| most <= times) {
            return false;
        }
        let joined = join(held, comes);
        if w < d {
            self.rows[d].entries[i] = joined;
            return true;
        }
        let grown = times.saturating_add(1);
        let all = &self.bounds[..];
        let bounds = Bounds {
            near: &all[d..MOST_WORDS.min(w + 2)],
            all,
        };
        let wide = widen_entry(&routine.policy.regions, bounds, grown, held, joined);
        self.growths[pair].times = grown;
        if !wide.bounded {
            let first = self.growths[pair].way.map_or(grown, |way| way.first);
            self.growths[pair].way = Some(Way {
                first,
                word: w as u8,
            });
        }
        self.rows[d].entries[i] = wide.entry;
        true
    }

    // The note of word d's row takes up another; whether it has changed.
    fn merge_note(&mut self, d: usize, comes: Note) -> bool
        requires { d < most_words }
    {
        let held = self.rows[d].note;
        if fits_note(comes, held) {
            return false;
        }
        self.rows[d].note = join_note(held, comes);
        true
    }

    // The row of word d takes up what comes from word w; whether it has changed. `spent`: too much has been
    // tried, and a row that grows on a way back says nothing any more.
    pub fn merge(&mut self, routine: &Routine, d: usize, comes: Row, w: usize, spent: bool) -> bool
        requires { (d < most_words) × (w < most_words) }
    {
        if !is_there(&self.rows[d]) {
            self.rows[d] = comes;
            return true;
        }
        if spent && d <= w {
            if fits_row(&comes, &self.rows[d]) {
                return false;
            }
            self.rows[d] = unset_row();
            return true;
        }
        let mut changed = self.merge_note(d, comes.note);
        for i in 1..ENTRIES {
            changed |= self.merge_entry(routine, d, i, comes.entries[i], w);
        }
        changed
    }
}

#[cfg(test)]
mod tests {
    use super::Draft;
    use drafts::is_there;

    // `is_there` promises nothing: in a new draft it sees no row.
    #[test]
    fn no_row_is_there(rt: HostRuntime) {
        let draft = Draft::new();
        assert!(rt; draft.rows.iter().all(|row| !is_there(row)));
    }
}
