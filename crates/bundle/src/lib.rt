// The answer to a bundle: its refusal, that of an add, or the check's answer (specs/Bundle.antt).
#![tactic(auto)]

ghost use Rattle.std.specs.Prelude.{◌≡◌, true, false, length};
ghost use Rattle.bundle_layout.specs.Layout.{narrow};
ghost use Rattle.bundle.specs.Bundle.{bundle_answer};
ghost use Rattle.bundle_open.specs.Open.{Holds, Inside};

use bundle_layout::is_narrow;
use bundle_open::{Opened, open};
use bundle_rows::{ROWS_ROOM, widen};
use checker::check;
use passes::Answer;
use passes::answers::refuse;
use rows::geometry::ROW_BYTES;
use v8::numbers::ACCEPTED;
use v8::{Edition, WordIndex};

// The check of what stands in a bundle of version 2, as it stands.
fn check_wide(edition: Edition, bytes: &[u8], opened: &Opened) -> Answer
    requires { Holds bytes.now opened.now
        × Inside opened.now (length bytes.now)
        × (narrow bytes.now ≡ false) }
    ensures { result ≡ bundle_answer edition bytes.now }
{
    check(
        edition,
        &opened.policy,
        &opened.words[..opened.count],
        &bytes[opened.rows..opened.end],
        &bytes[opened.entry..opened.result],
        &bytes[opened.result..opened.code],
    )
}

// The check of what stands in a bundle of version 1, with its rows widened.
fn check_narrow(edition: Edition, bytes: &[u8], opened: &Opened) -> Answer
    requires { Holds bytes.now opened.now
        × Inside opened.now (length bytes.now)
        × (narrow bytes.now ≡ true) }
    ensures { result ≡ bundle_answer edition bytes.now }
{
    let mut entry = [0u8; ROW_BYTES];
    let mut rows = [0u8; ROWS_ROOM];
    widen(bytes, opened.entry, 1, &mut entry);
    widen(bytes, opened.rows, opened.count, &mut rows);
    check(
        edition,
        &opened.policy,
        &opened.words[..opened.count],
        &rows[..ROW_BYTES * opened.count],
        &entry,
        &bytes[opened.result..opened.code],
    )
}

// The answer to a bundle, for a terminal of the edition. Any bytes have one.
pub fn answer(edition: Edition, bytes: &[u8]) -> Answer
    ensures { result ≡ bundle_answer edition bytes.now }
{
    let opened = open(bytes);
    if opened.number != ACCEPTED {
        return refuse(opened.number, WordIndex(0), 0);
    }
    if is_narrow(bytes) {
        return check_narrow(edition, bytes, &opened);
    }
    check_wide(edition, bytes, &opened)
}
