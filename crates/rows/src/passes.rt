// The passes over a row: its form, and whether one row fits another (specs/Row.antt). Each goes through
// the places in the order of the numbers that name them.
ghost use Rattle.std.specs.Prelude.{◌≡◌, ◌<◌, length};
ghost use Rattle.rows.specs.Geometry.{places, RowLies};
ghost use Rattle.rows.specs.Row.{row_of, formed_at, form_fault, scratch_unset, fits_at, misfit};

use crate::Row;
use crate::entries::{UNSET, fits};
use crate::geometry::{ENTRY_BYTES, NOTE_NAME, NOTE_OFFSET, PLACES, REGISTERS, entry_named};
use crate::notes::fits_note;
use crate::reading::{entry_formed_as, note_formed, read_entry, read_note};
use memory::frame::SCRATCH_WORDS;
use policy::Regions;

// Whether the place so named of the row that begins at a byte is well formed.
#[tactic(auto, using(v8::proofs::Choice::tests), unfolding(crate::specs::Row::formed_at))]
pub fn formed_at(regions: &Regions, bytes: &[u8], at: usize, place: u8) -> bool
    requires { RowLies at (length bytes.now) × (place < places) }
    ensures { result ≡ formed_at regions.now.count regions.now.sizes bytes.now at place }
{
    if place == NOTE_NAME {
        return note_formed(bytes, at + NOTE_OFFSET);
    }
    let i = entry_named(place);
    entry_formed_as(regions, bytes, at + ENTRY_BYTES * i, i)
}

// The lowest badly formed place of the row that begins at a byte.
pub fn form_fault(regions: &Regions, bytes: &[u8], at: usize) -> Option<u8>
    requires { RowLies at (length bytes.now) }
    ensures { result ≡ form_fault regions.now.count regions.now.sizes bytes.now at }
{
    (0..PLACES).find(|&place| !formed_at(regions, bytes, at, place))
}

// Whether the scratch words of the row that begins at a byte are unset.
pub fn scratch_unset(bytes: &[u8], at: usize) -> bool
    requires { RowLies at (length bytes.now) }
    ensures { result ≡ scratch_unset bytes.now at }
{
    (0..SCRATCH_WORDS).all(|k| read_entry(bytes, at + ENTRY_BYTES * (REGISTERS + k)).kind == UNSET)
}

// Whether the place so named of a row fits that of the row that begins at a byte.
fn fits_at(row: &Row, bytes: &[u8], at: usize, place: u8) -> bool
    requires { RowLies at (length bytes.now) × (place < places) }
    ensures { result ≡ fits_at row.now (row_of bytes.now at) place }
{
    if place == NOTE_NAME {
        return fits_note(row.note, read_note(bytes, at + NOTE_OFFSET));
    }
    let i = entry_named(place);
    let asked = read_entry(bytes, at + ENTRY_BYTES * i);
    fits(row.entries[i], asked)
}

// The lowest place of a row that does not fit the row that begins at a byte.
pub fn misfit(row: Row, bytes: &[u8], at: usize) -> Option<u8>
    requires { RowLies at (length bytes.now) }
    ensures { result ≡ misfit row (row_of bytes.now at) }
{
    (0..PLACES).find(|&place| !fits_at(&row, bytes, at, place))
}
