// The bundle completed (specs/Kept.antt).
ghost use Rattle.std.specs.Prelude.{◌≡◌, true, false, ◌*◌, ◌≤◌, length};
ghost use Rattle.rows.specs.Geometry.{row_bytes};
ghost use Rattle.bundle_layout.specs.Layout.{narrow, narrow_row_bytes, most_given};
ghost use Rattle.bundle.specs.Bundle.{bundle_answer};
ghost use Rattle.bundle_open.specs.Open.{Holds, Inside};
ghost use Rattle.completion.specs.Kept.{RowsKept, Kept};

use crate::copying::put_rows;
use bundle::answer;
use bundle_layout::{NARROW_ROW_BYTES, is_narrow};
use bundle_open::{Opened, open};
use bundle_rows::{ROWS_ROOM, widen};
use finder::find_rows;
use passes::Answer;
use rows::geometry::ROW_BYTES;
use v8::Edition;
use v8::numbers::ACCEPTED;

// Finds the rows of an opened bundle, in a room that begins with those that it has.
fn find_in(edition: Edition, opened: &Opened, room: &mut [u8], entry: &[u8], res: &[u8])
    requires { (opened.now.count ≤ most_given) × (row_bytes * opened.now.count ≤ length room.old) }
{
    find_rows(
        edition,
        &opened.policy,
        &opened.words[..opened.count],
        &mut room[..ROW_BYTES * opened.count],
        entry,
        res,
    );
}

// Finds the rows of a bundle of version 2.
fn complete_wide(edition: Edition, bytes: &mut [u8], opened: &Opened)
    requires { Holds bytes.old opened.now
        × Inside opened.now (length bytes.old)
        × (narrow bytes.old ≡ false) }
    ensures { RowsKept row_bytes opened.now.count opened.now.rows bytes.old bytes.new }
{
    let mut room = [0u8; ROWS_ROOM];
    room[..ROW_BYTES * opened.count].copy_from_slice(&bytes[opened.rows..opened.end]);
    find_in(
        edition,
        opened,
        &mut room,
        &bytes[opened.entry..opened.result],
        &bytes[opened.result..opened.code],
    );
    put_rows(&room, opened.count, bytes, opened.rows, ROW_BYTES);
}

// Finds the rows of a bundle of version 1: widened, and put back without scratch words.
fn complete_narrow(edition: Edition, bytes: &mut [u8], opened: &Opened)
    requires { Holds bytes.old opened.now
        × Inside opened.now (length bytes.old)
        × (narrow bytes.old ≡ true) }
    ensures { RowsKept narrow_row_bytes opened.now.count opened.now.rows bytes.old bytes.new }
{
    let mut entry = [0u8; ROW_BYTES];
    let mut room = [0u8; ROWS_ROOM];
    widen(bytes, opened.entry, 1, &mut entry);
    widen(bytes, opened.rows, opened.count, &mut room);
    find_in(
        edition,
        opened,
        &mut room,
        &entry,
        &bytes[opened.result..opened.code],
    );
    put_rows(&room, opened.count, bytes, opened.rows, NARROW_ROW_BYTES);
}

// Finds the missing rows of a bundle, in place, for a terminal of the edition. The answer is that to the
// bundle as it is then. Any bytes have one; what is no bundle stays as it is.
pub fn complete(edition: Edition, bytes: &mut [u8]) -> Answer
    ensures answered { result ≡ bundle_answer edition bytes.new }
    ensures kept { Kept bytes.old bytes.new }
{
    let opened = open(bytes);
    if opened.number != ACCEPTED {
        return answer(edition, bytes);
    }
    if is_narrow(bytes) {
        complete_narrow(edition, bytes, &opened);
        return answer(edition, bytes);
    }
    complete_wide(edition, bytes, &opened);
    answer(edition, bytes)
}
