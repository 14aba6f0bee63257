// Entries, notes and rows, read from bytes (specs/Row.antt).
ghost use Rattle.std.specs.Prelude.{◌≡◌, ◌+◌, ◌≤◌, length};
ghost use Rattle.v8.specs.Signed.{excess};
ghost use Rattle.memory.specs.Memory.{word_at};
ghost use Rattle.rows.specs.Geometry.{EntryLies, NoteLies, RowLies};
ghost use Rattle.rows.specs.Row.{entry_of, entry_formed, entry_formed_as, note_of, note_formed, row_of};

use crate::entries::{FRAME_ADDRESS, entry_ok, is_zero};
use crate::geometry::{ENTRIES, ENTRY_BYTES, NOTE_OFFSET};
use crate::notes::note_ok;
use crate::{Entry, Note, Row};
use memory::word_within;
use policy::Regions;
use sets::NumberSet;
use std::array;
use v8::signed::excess;

// The signed number at a place, in excess form.
fn number_at(bytes: &[u8], at: usize) -> u32
    requires { at + 4 ≤ length bytes.now }
    ensures { result ≡ excess (word_at bytes.now at) }
{
    excess(word_within(bytes, at))
}

// The entry that begins at a byte.
#[tactic(auto, unfolding(crate::specs::Row::entry_of))]
pub fn read_entry(bytes: &[u8], at: usize) -> Entry
    requires { EntryLies at (length bytes.now) }
    ensures { result ≡ entry_of bytes.now at }
{
    let lo = number_at(bytes, at + 4);
    let hi = number_at(bytes, at + 8);
    Entry {
        kind: bytes[at],
        region: bytes[at + 1],
        set: NumberSet {
            step: bytes[at + 2],
            lo,
            hi,
        },
    }
}

// Whether the entry that begins at a byte is well formed, its zero byte too.
pub fn entry_formed(regions: &Regions, bytes: &[u8], at: usize) -> bool
    requires { EntryLies at (length bytes.now) }
    ensures { result ≡ entry_formed regions.now.count regions.now.sizes bytes.now at }
{
    (bytes[at + 3] == 0) & entry_ok(regions, read_entry(bytes, at))
}

// r14, in which alone the frame address may stand.
pub const FRAME_REGISTER: usize = 14;

// Whether the entry that begins at a byte is well formed as entry i of a row: so, and r0's is the
// single number 0, and the frame address stands in r14.
pub fn entry_formed_as(regions: &Regions, bytes: &[u8], at: usize, i: usize) -> bool
    requires { EntryLies at (length bytes.now) }
    ensures { result ≡ entry_formed_as regions.now.count regions.now.sizes bytes.now at i }
{
    let e = read_entry(bytes, at);
    let formed = (bytes[at + 3] == 0) & entry_ok(regions, e);
    let null = is_zero(e);
    formed & ((i != 0) | null) & ((e.kind != FRAME_ADDRESS) | (i == FRAME_REGISTER))
}

// The note that begins at a byte.
#[tactic(auto, unfolding(crate::specs::Row::note_of))]
pub fn read_note(bytes: &[u8], at: usize) -> Note
    requires { NoteLies at (length bytes.now) }
    ensures { result ≡ note_of bytes.now at }
{
    Note {
        kind: bytes[at],
        register: bytes[at + 1],
        number: number_at(bytes, at + 4),
    }
}

// Whether the note that begins at a byte is well formed, its zero bytes too.
pub fn note_formed(bytes: &[u8], at: usize) -> bool
    requires { NoteLies at (length bytes.now) }
    ensures { result ≡ note_formed bytes.now at }
{
    (bytes[at + 2] == 0) & (bytes[at + 3] == 0) & note_ok(read_note(bytes, at))
}

// The row that begins at a byte.
pub fn read_row(bytes: &[u8], at: usize) -> Row
    requires { RowLies at (length bytes.now) }
    ensures { result ≡ row_of bytes.now at }
{
    Row {
        entries: array::from_fn(|i| read_entry(bytes, at + ENTRY_BYTES * i)),
        note: read_note(bytes, at + NOTE_OFFSET),
    }
}
