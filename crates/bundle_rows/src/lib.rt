// Rows of version 1, put into the form of version 2 (specs/Wide.antt).
#![tactic(auto)]

ghost use Rattle.std.specs.Prelude.{◌≡◌, ◌++◌, ◌+◌, ◌*◌, ◌≤◌, length, take};
ghost use Rattle.rows.specs.Geometry.{row_bytes};
ghost use Rattle.bundle_layout.specs.Layout.{most_given, narrow_row_bytes};
ghost use Rattle.bundle_rows.specs.Wide.{part, wide_row, wide_rows};

use bundle_layout::NARROW_ROW_BYTES;
use rows::geometry::{NOTE_OFFSET, ROW_BYTES};

// Room for the rows of as many words as a bundle may give, of 464 bytes each.
pub const ROWS_ROOM: usize = 61712;

// How many bytes the registers' entries take.
const REGISTERS_BYTES: usize = 384;

// Writes the row that stands at a place, with six unset entries, to a place.
fn widen_row(bytes: &[u8], at: usize, to: &mut [u8], place: usize)
    requires { (at + narrow_row_bytes ≤ length bytes.now) × (place + row_bytes ≤ length to.old) }
    ensures { take (place + row_bytes) to.new ≡ take place to.old ++ wide_row bytes.now at }
{
    to[place..place + REGISTERS_BYTES].copy_from_slice(&bytes[at..at + REGISTERS_BYTES]);
    to[place + REGISTERS_BYTES..place + NOTE_OFFSET].fill(0);
    to[place + NOTE_OFFSET..place + ROW_BYTES].copy_from_slice(
        &bytes[at + REGISTERS_BYTES..at + NARROW_ROW_BYTES],
    );
}

// Writes the n rows that stand from a place on, each with six unset entries, into a room.
pub fn widen(bytes: &[u8], at: usize, n: usize, room: &mut [u8])
    requires { (at + narrow_row_bytes * n ≤ length bytes.now) × (row_bytes * n ≤ length room.old) × (n ≤ most_given) }
    ensures { take (row_bytes * n) room.new ≡ wide_rows bytes.now at n }
{
    for i in 0..n {
        widen_row(bytes, at + NARROW_ROW_BYTES * i, room, ROW_BYTES * i);
    }
}
