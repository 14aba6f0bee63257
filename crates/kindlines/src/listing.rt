// The listing of a bundle's routine (specs/Bundled.antt).
ghost use Rattle.std.specs.Prelude.{◌≡◌, true, false, length};
ghost use Rattle.bundle_layout.specs.Layout.{narrow};
ghost use Rattle.bundle_open.specs.Open.{Holds, Inside};
ghost use Rattle.kindlines.specs.Bundled.{bundle_listed};

use bundle_layout::is_narrow;
use bundle_open::{Opened, open};
use bundle_rows::widen;
use lister::list_kinds;
use passes::Answer;
use passes::answers::refuse;
use rows::geometry::ROW_BYTES;
use v8::numbers::ACCEPTED;
use v8::{Edition, WordIndex};

// Lists a bundle of version 2, with its entry row as it stands.
fn list_wide(edition: Edition, bytes: &[u8], opened: &Opened, table: &mut [u8]) -> Answer
    requires { Holds bytes.now opened.now
        × Inside opened.now (length bytes.now)
        × (narrow bytes.now ≡ false) }
    ensures { record { answer = result; table = table.new }
        ≡ bundle_listed edition bytes.now table.old }
{
    let words = &opened.words[..opened.count];
    list_kinds(
        edition,
        &opened.policy,
        words,
        &bytes[opened.entry..opened.result],
        table,
    )
}

// Lists a bundle of version 1, with its entry row widened.
fn list_narrow(edition: Edition, bytes: &[u8], opened: &Opened, table: &mut [u8]) -> Answer
    requires { Holds bytes.now opened.now
        × Inside opened.now (length bytes.now)
        × (narrow bytes.now ≡ true) }
    ensures { record { answer = result; table = table.new }
        ≡ bundle_listed edition bytes.now table.old }
{
    let mut row = [0u8; ROW_BYTES];
    widen(bytes, opened.entry, 1, &mut row);
    let words = &opened.words[..opened.count];
    list_kinds(edition, &opened.policy, words, &row, table)
}

// Lists the kinds of a bundle's routine, for a terminal of the edition, in a lent table. Any bytes have
// an answer; a refusal leaves the table as it was.
pub fn list_bundle(edition: Edition, bytes: &[u8], table: &mut [u8]) -> Answer
    ensures { record { answer = result; table = table.new }
        ≡ bundle_listed edition bytes.now table.old }
{
    let opened = open(bytes);
    if opened.number != ACCEPTED {
        return refuse(opened.number, WordIndex(0), 0);
    }
    if is_narrow(bytes) {
        return list_narrow(edition, bytes, &opened, table);
    }
    list_wide(edition, bytes, &opened, table)
}
