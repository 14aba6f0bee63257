// How a word fares with a row: it hands on what fits, it hands on what does not, or it is refused.
ghost use Rattle.std.specs.Prelude.{◌<◌};
ghost use Rattle.v8.specs.Numbers.{most_words};

use checker::change_by;
use drafts::{RESULT, Routine, fits_row, is_there, narrowed};
use flow_edges::edges::edge_of;
use flow_edges::{Destination, Edge};
use policy::Policy;
use rows::{Row, entry_at, fits, row_with};
use rules::Change;
use v8::numbers::MOST_WORDS;
use v8::{Reading, WordIndex};

// The word hands on what fits, hands on what does not, or is refused: the best comes first.
#[derive(Clone, Copy, PartialEq, Eq, PartialOrd, Ord)]
pub enum Fate {
    Fits,
    Misfits,
    Refused,
}

// The row after a word, read as x; none, where the word is refused.
fn made_by(policy: &Policy, row: Row, x: Reading) -> Option<Row> {
    match change_by(policy, row, x) {
        Change::Writes(register, entry, note) => Some(row_with(row, register, entry, note)),
        Change::Keeps => Some(row),
        Change::Breaks(_, _) => None,
    }
}

// How a word fares whose row arrives at the end of an edge.
fn arrival(routine: &Routine, rows: &[Row; MOST_WORDS], to: Destination, row: Row) -> Fate {
    match to {
        Destination::To(d) => match rows.get(d.0 as usize) {
            Some(next) if is_there(next) && !fits_row(&row, next) => Fate::Misfits,
            _ => Fate::Fits,
        },
        Destination::Caller if fits(entry_at(row, RESULT), routine.res) => Fate::Fits,
        Destination::Caller => Fate::Refused,
    }
}

// How a word fares along an edge, over its slot, read as x.
fn along(routine: &Routine, rows: &[Row; MOST_WORDS], x: Reading, e: Edge, row: Row) -> Fate {
    if !e.exists {
        return Fate::Fits;
    }
    let Some(left) = narrowed(row, e) else {
        return Fate::Fits;
    };
    if !e.slot {
        return arrival(routine, rows, e.to, left);
    }
    match made_by(routine.policy, left, x) {
        Some(after) => arrival(routine, rows, e.to, after),
        None => Fate::Refused,
    }
}

// How word u fares with a row.
pub fn fares(routine: &Routine, rows: &[Row; MOST_WORDS], u: usize, row: Row) -> Fate
    requires { u < most_words }
{
    let x = routine.readings[u];
    let Reading::Read(instruction) = x else {
        return Fate::Refused;
    };
    let Some(after) = made_by(routine.policy, row, x) else {
        return Fate::Refused;
    };
    for taken in [true, false] {
        let e = edge_of(WordIndex(u as u32), instruction, taken);
        let fate = along(routine, rows, routine.slot_of(u), e, after);
        if fate != Fate::Fits {
            return fate;
        }
    }
    Fate::Fits
}
