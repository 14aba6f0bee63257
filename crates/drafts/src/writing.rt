// Rows written to bytes.
ghost use Rattle.std.specs.Prelude.{◌+◌, ◌≤◌, length};
ghost use Rattle.rows.specs.Geometry.{RowLies};

use rows::Row;
use rows::geometry::{ENTRY_BYTES, NOTE_OFFSET};
use v8::signed::excess;

// Writes a number, held in excess form, to a place.
fn write_number(bytes: &mut [u8], at: usize, n: u32)
    requires { at + 4 ≤ length bytes.old }
{
    bytes[at..at + 4].copy_from_slice(&excess(n).to_be_bytes());
}

// Writes three bytes and a zero to a place.
fn write_head(bytes: &mut [u8], at: usize, first: u8, second: u8, third: u8)
    requires { at + 4 ≤ length bytes.old }
{
    bytes[at..at + 4].copy_from_slice(&[first, second, third, 0]);
}

// Writes a row to a place.
pub fn write_row(bytes: &mut [u8], at: usize, row: &Row)
    requires { RowLies at (length bytes.old) }
{
    for (i, e) in row.entries.iter().enumerate() {
        let place = at + ENTRY_BYTES * i;
        write_head(bytes, place, e.kind, e.region, e.set.step);
        write_number(bytes, place + 4, e.set.lo);
        write_number(bytes, place + 8, e.set.hi);
    }
    let place = at + NOTE_OFFSET;
    write_head(bytes, place, row.note.kind, row.note.register, 0);
    write_number(bytes, place + 4, row.note.number);
}
