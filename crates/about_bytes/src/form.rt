// Badly formed rows and entries: where the bytes at fault stand in the bundle.
ghost use Rattle.std.specs.Prelude.{◌≤◌, length};
ghost use Rattle.rows.specs.Geometry.{RowLies};

use about_items::items::{bare, show_bytes, single};
use bundle_layout::{is_narrow, rows_bytes};
use bundle_open::Opened;
use memory::frame::SCRATCH_WORDS;
use policy::Policy;
use rows::entries::UNSET;
use rows::geometry::{
    ENTRY_BYTES, NOTE_NAME, NOTE_OFFSET, PLACES, REGISTERS, ROW_BYTES, entry_named, scratch_name,
};
use rows::{form_fault, read_entry};
use v8::numbers::MOST_WORDS;

// How many bytes a note has.
const NOTE_BYTES: usize = 8;
// Where it stands in a row of version 1, after the registers' entries.
const NARROW_NOTE_OFFSET: usize = 384;

// The bytes from a place on.
fn show_part(bytes: &[u8], at: usize, count: usize) {
    single(b"at", at as u64);
    if bytes.len() < count || bytes.len() - count < at {
        return;
    }
    show_bytes(&bytes[at..at + count]);
}

// Where the note stands in a row of the bundle's version.
fn note_offset(bytes: &[u8]) -> usize
    ensures { result ≤ 456 }
{
    if is_narrow(bytes) {
        return NARROW_NOTE_OFFSET;
    }
    NOTE_OFFSET
}

// The bytes of a named place of the row that begins at a byte of the bundle.
fn show_place(bytes: &[u8], row: usize, place: u8) {
    single(b"misfit", place as u64);
    if bytes.len() < row {
        return;
    }
    if place == NOTE_NAME {
        return show_part(bytes, row + note_offset(bytes), NOTE_BYTES);
    }
    if PLACES <= place {
        return;
    }
    show_part(bytes, row + ENTRY_BYTES * entry_named(place), ENTRY_BYTES)
}

// The lowest scratch word of a row that is set.
fn scratch_set(row: &[u8]) -> Option<u8>
    requires { RowLies 0 (length row.now) }
{
    for k in 0..SCRATCH_WORDS {
        let e = read_entry(row, ENTRY_BYTES * (REGISTERS + k));
        if e.kind != UNSET {
            return Some(scratch_name(k as u8));
        }
    }
    None
}

// The lowest badly formed place of an entry row, or its lowest scratch word that is set.
fn entry_fault(policy: &Policy, row: &[u8]) -> Option<u8>
    requires { RowLies 0 (length row.now) }
{
    form_fault(&policy.regions, row, 0).or_else(|| scratch_set(row))
}

// Where the entry row is badly formed, or the result entry where the entry row is not.
fn show_entry_row(bytes: &[u8], o: &Opened, row: &[u8]) {
    if row.len() < ROW_BYTES {
        return;
    }
    match entry_fault(&o.policy, row) {
        Some(place) => {
            bare(b"part entry");
            show_place(bytes, o.entry, place);
        }
        None => {
            bare(b"part result");
            show_part(bytes, o.result, ENTRY_BYTES);
        }
    }
}

// Why the shape of a routine is refused: its count of words, its entry row, as it is read, or its result
// entry.
pub fn show_shape(bytes: &[u8], o: &Opened, entry: &[u8]) {
    if o.count < 1 || MOST_WORDS < o.count {
        return single(b"words", o.count as u64);
    }
    show_entry_row(bytes, o, entry)
}

// The named place of a word's row.
pub fn show_broken_row(bytes: &[u8], rows: usize, at: usize, place: u8) {
    if MOST_WORDS <= at || bytes.len() < rows {
        return;
    }
    show_place(bytes, rows + rows_bytes(bytes, at), place)
}
