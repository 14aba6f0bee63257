// Rows put where they are missing, in the form of either version (specs/Kept.antt).
ghost use Rattle.std.specs.Prelude.{◌+◌, ◌*◌, ◌≤◌, length};
ghost use Rattle.rows.specs.Geometry.{row_bytes};
ghost use Rattle.bundle_layout.specs.Layout.{most_given};
ghost use Rattle.completion.specs.Kept.{RowsKept, SameOutside, PutAt};

use bundle_rows::ROWS_ROOM;
use rows::geometry::{NOTE_OFFSET, ROW_BYTES};

// How many bytes the note has.
const NOTE_BYTES: usize = 8;

// Copies the row that begins at `start` to a place, in a form of `size` bytes: as many of its entries as
// that form has, and its note.
fn copy_row(rows: &[u8], start: usize, bytes: &mut [u8], at: usize, size: usize)
    requires { (start + row_bytes ≤ length rows.now)
        × (at + size ≤ length bytes.old)
        × (8 ≤ size)
        × (size ≤ row_bytes) }
    ensures { SameOutside at size bytes.old bytes.new }
{
    let entries = size - NOTE_BYTES;
    bytes[at..at + entries].copy_from_slice(&rows[start..start + entries]);
    bytes[at + entries..at + size].copy_from_slice(&rows[start + NOTE_OFFSET..start + ROW_BYTES]);
}

// Writes a row to a place, in a form of `size` bytes, if the row there is missing.
fn put_row(rows: &[u8], start: usize, bytes: &mut [u8], at: usize, size: usize)
    requires { (start + row_bytes ≤ length rows.now)
        × (at + size ≤ length bytes.old)
        × (8 ≤ size)
        × (size ≤ row_bytes) }
    ensures { PutAt at size bytes.old bytes.new }
{
    if bytes[at] == 0 {
        copy_row(rows, start, bytes, at, size);
    }
}

// Writes those of n rows, from a place on, that are missing there, in a form of `size` bytes each.
pub fn put_rows(rows: &[u8; ROWS_ROOM], n: usize, bytes: &mut [u8], at: usize, size: usize)
    requires { (n ≤ most_given)
        × (at + size * n ≤ length bytes.old)
        × (8 ≤ size)
        × (size ≤ row_bytes) }
    ensures { RowsKept size n at bytes.old bytes.new }
{
    for i in 0..n {
        put_row(rows, ROW_BYTES * i, bytes, at + size * i, size);
    }
}
