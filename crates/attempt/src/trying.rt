// One attempt: the rows of all words, found and checked. Limits say how often an entry may grow; where there
// are some, rows are not made smaller again.
ghost use Rattle.std.specs.Prelude.{◌≡◌, ◌≤◌, ◌*◌, length};
ghost use Rattle.v8.specs.Numbers.{most_words};
ghost use Rattle.rows.specs.Geometry.{row_bytes, entry_bytes, RowLies};

use crate::tables::{begin, fill};
use checker::check;
use drafts::{Routine, TABLE_ENTRIES, is_there, no_row};
use flow_code::{examine_all, read_all};
use growth::{SWEEPS, grow};
use lowering::lower;
use merging::{Draft, Growth, NOT_GROWN};
use needs::{find_needs, shorten};
use passes::Answer;
use policy::Policy;
use rows::{read_entry, read_row};
use strays::strand;
use v8::Edition;
use v8::numbers::MOST_WORDS;

// What is asked: a routine in all its parts but for its rows, and which words have a row that is given.
#[derive(Clone, Copy)]
pub struct Asked<'a> {
    pub edition: Edition,
    pub policy: &'a Policy,
    pub words: &'a [u32],
    pub given: &'a [bool; MOST_WORDS],
    pub entry: &'a [u8],
    pub res: &'a [u8],
    ghost few: { length words.now ≤ most_words },
    ghost entry_lies: { RowLies 0 (length entry.now) },
    ghost res_lies: { entry_bytes ≤ length res.now },
}

// What an attempt gave: the check's answer, and how the entries grew.
#[derive(Clone, Copy)]
pub struct Attempt {
    pub answer: Answer,
    pub growths: [Growth; TABLE_ENTRIES],
}

// Words that nothing reaches get rows too, and hand on what they make of them.
fn strand_all(routine: &Routine, draft: &mut Draft, sweeps: u32) {
    let mut left = sweeps;
    for w in 0..routine.count {
        if routine.examined[w] && !is_there(&draft.rows[w]) {
            draft.rows[w] = strand(routine, &draft.rows, w);
            draft.pending = [false; MOST_WORDS];
            draft.pending[w] = true;
            left = grow(routine, draft, left);
        }
    }
}

// Grows the rows of all words of a routine whose flow is right, from those that are given.
fn grow_all(routine: &Routine, draft: &mut Draft) {
    draft.pending = *routine.given;
    if !routine.given[0] {
        draft.rows[0] = routine.entry;
        draft.pending[0] = true;
    }
    let left = grow(routine, draft, SWEEPS);
    let limits = routine.limits;
    if limits.iter().all(|limit| limit.is_none()) {
        lower(routine, &mut draft.rows);
    }
    strand_all(routine, draft, left);
}

// Finds the rows of all words of a routine whose flow is right, without what no later word reads.
fn find_all(routine: &Routine, draft: &mut Draft) {
    grow_all(routine, draft);
    let need = find_needs(routine, &draft.rows);
    shorten(routine, &need, &mut draft.rows);
}

impl Asked<'_> {
    // Finds the rows that are not given, where each entry may grow as often as its limit says, and checks
    // them all.
    pub fn try_rows(&self, limits: &[Option<u8>; TABLE_ENTRIES], rows: &mut [u8]) -> Attempt
        requires { row_bytes * length self.now.words.now ≡ length rows.old }
    {
        let count = self.words.len();
        let readings = read_all(self.edition, self.words);
        let examined = examine_all(&readings, count);
        let routine = Routine {
            policy: self.policy,
            readings: &readings,
            count,
            examined: &examined,
            given: self.given,
            limits,
            entry: read_row(self.entry, 0),
            res: read_entry(self.res, 0),
        };
        // Made here, since a function that hands it back takes the stack and the time for two more.
        let mut draft = Draft {
            rows: [no_row(); MOST_WORDS],
            pending: [false; MOST_WORDS],
            bounds: [None; MOST_WORDS],
            growths: [NOT_GROWN; TABLE_ENTRIES],
        };
        begin(rows, count, self.given, &mut draft.rows);
        find_all(&routine, &mut draft);
        fill(count, self.given, &draft.rows, rows);
        Attempt {
            answer: check(
                self.edition,
                self.policy,
                self.words,
                rows,
                self.entry,
                self.res,
            ),
            growths: draft.growths,
        }
    }
}
