// Rows as a whole: whether one is there, whether it fits another, and rows that say little.
ghost use Rattle.std.specs.Prelude.{◌≡◌};
ghost use Rattle.rows.specs.Flaw.{flawless};
ghost use Rattle.rows.specs.Row.{misfit};
ghost use Rattle.drafts.specs.Standing.{no_note, no_row};

use joins::unset;
use rows::entries::{NUMBER, UNSET, fits};
use rows::geometry::ENTRIES;
use rows::notes::{NOTE_UNSET, fits_note};
use rows::{Entry, Note, Row};
use sets::NumberSet;
use v8::signed::BIAS;

// Whether a row is there.
pub fn is_there(row: &Row) -> bool {
    row.entries[0].kind != UNSET
}

// Whether all that a row says fits what another says.
pub fn fits_row(held: &Row, asked: &Row) -> bool
    ensures { result ≡ flawless (misfit held.now asked.now) }
{
    fits_note(held.note, asked.note)
        & held
            .entries
            .iter()
            .zip(asked.entries.iter())
            .all(|(&a, &b)| fits(a, b))
}

// The note that nothing is known of the codes.
pub fn no_note() -> Note
    ensures { result ≡ no_note }
{
    Note {
        kind: NOTE_UNSET,
        register: 0,
        number: BIAS,
    }
}

// A row that is not there.
pub fn no_row() -> Row
    ensures { result ≡ no_row }
{
    Row {
        entries: [unset(); ENTRIES],
        note: no_note(),
    }
}

// A row that says nothing but that r0 is 0.
pub fn unset_row() -> Row {
    let mut row = no_row();
    row.entries[0] = Entry {
        kind: NUMBER,
        region: 0,
        set: NumberSet {
            step: 8,
            lo: BIAS,
            hi: BIAS,
        },
    };
    row
}
