// An entry of a row, by its index: a register's number, or after them a scratch word's
// (specs/Row.antt).
ghost use Rattle.std.specs.Prelude.{◌≡◌};
ghost use Rattle.rows.specs.Row.{entry_at, row_with};

use crate::entries::no_entry;
use crate::geometry::ENTRIES;
use crate::{Entry, Note, Row};

// Entry r; there is none after the last.
#[tactic(auto, using(v8::proofs::Choice::tests), unfolding(crate::specs::Row::entry_at))]
pub fn entry_at(row: Row, r: u8) -> Entry
    ensures { result ≡ entry_at row r }
{
    row.entries.get(r as usize).copied().unwrap_or(no_entry())
}

// The row after entry r is written and the codes have a note; r0 keeps its entry.
#[tactic(auto, using(v8::proofs::Choice::tests), unfolding(crate::specs::Row::entries_with))]
pub fn row_with(mut row: Row, r: u8, e: Entry, n: Note) -> Row
    ensures { result ≡ row_with row r e n }
{
    row.note = n;
    let i = r as usize;
    if (0 < i) & (i < ENTRIES) {
        row.entries[i] = e;
    }
    row
}
