// The rows in draft: those that are given, and what is written out where none is.
ghost use Rattle.std.specs.Prelude.{◌≤◌, ◌*◌, length};
ghost use Rattle.v8.specs.Numbers.{most_words};
ghost use Rattle.rows.specs.Geometry.{row_bytes};

use drafts::{is_there, unset_row, write_row};
use rows::geometry::ROW_BYTES;
use rows::{Row, read_row};
use v8::numbers::MOST_WORDS;

// Takes in the rows that are given.
pub fn begin(rows: &[u8], count: usize, given: &[bool; MOST_WORDS], table: &mut [Row; MOST_WORDS])
    requires { (count ≤ most_words) × (row_bytes * count ≤ length rows.now) }
{
    for w in 0..count {
        if given[w] {
            table[w] = read_row(rows, ROW_BYTES * w);
        }
    }
}

// Writes all rows that are not given; where none was found, one that says nothing.
pub fn fill(count: usize, given: &[bool; MOST_WORDS], table: &[Row; MOST_WORDS], rows: &mut [u8])
    requires { (count ≤ most_words) × (row_bytes * count ≤ length rows.old) }
{
    for w in 0..count {
        if !given[w] {
            let found = if is_there(&table[w]) {
                table[w]
            } else {
                unset_row()
            };
            write_row(rows, ROW_BYTES * w, &found);
        }
    }
}
