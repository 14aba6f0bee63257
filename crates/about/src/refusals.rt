// What an answer is about, by its number.
ghost use Rattle.std.specs.Prelude.{◌≡◌, true, length};
ghost use Rattle.bundle_layout.specs.Layout.{narrow};
ghost use Rattle.bundle_open.specs.Open.{Holds, Inside};

use about_bytes::{show_adds, show_broken_row, show_no_bundle, show_shape};
use about_items::items::{done, value};
use about_items::readings::show_reading;
use about_words::Routine;
use bundle::answer;
use bundle_layout::is_narrow;
use bundle_open::{Opened, open};
use bundle_rows::{ROWS_ROOM, widen};
use flow_code::{read_all, reading_at};
use output::print;
use passes::Answer;
use rows::geometry::ROW_BYTES;
use rows::read_row;
use v8::numbers::{ACCEPTED, BAD_BUNDLE, BAD_ROW, BAD_SHAPE, ENTRY_MISFIT, MOST_WORDS};
use v8::{Edition, Reading};

// The rows, the entry row and the result entry of an opened bundle, as they are read.
#[derive(Clone, Copy)]
struct Parts<'a> {
    rows: &'a [u8],
    entry: &'a [u8],
    res: &'a [u8],
}

// The word that is named, and how it is read.
fn show_word(at: usize, word: u32, x: Reading) {
    print(b"word");
    value(at as u64);
    value(word as u64);
    done();
    show_reading(x);
}

// A refusal that names a word.
fn show_named(edition: Edition, opened: &Opened, words: &[u32], parts: Parts<'_>, a: Answer) {
    let at = a.word.0 as usize;
    if MOST_WORDS < words.len() || words.len() <= at {
        return;
    }
    let readings = read_all(edition, words);
    show_word(at, words[at], reading_at(&readings, at));
    let routine = Routine {
        policy: &opened.policy,
        rows: parts.rows,
        res: parts.res,
        words: words.len(),
        readings: &readings,
    };
    if a.number != ENTRY_MISFIT {
        return routine.show_refused_word(a);
    }
    if ROW_BYTES <= parts.entry.len() {
        routine.show_misfit_at(0, read_row(parts.entry, 0));
    }
}

// What a refusal of an opened bundle is about.
fn show_refusal(edition: Edition, bytes: &[u8], opened: &Opened, parts: Parts<'_>, a: Answer)
    requires { Inside opened.now (length bytes.now) }
{
    match a.number {
        BAD_SHAPE => show_shape(bytes, opened, parts.entry),
        BAD_ROW => show_broken_row(bytes, opened.rows, a.word.0 as usize, a.register),
        _ => show_named(edition, opened, &opened.words[..opened.count], parts, a),
    }
}

// The same of a bundle of version 2, as it stands.
fn show_wide(edition: Edition, bytes: &[u8], opened: &Opened, a: Answer)
    requires { Inside opened.now (length bytes.now) }
{
    let parts = Parts {
        rows: &bytes[opened.rows..opened.end],
        entry: &bytes[opened.entry..opened.result],
        res: &bytes[opened.result..opened.code],
    };
    show_refusal(edition, bytes, opened, parts, a)
}

// The same of a bundle of version 1, with its rows widened.
fn show_narrow(edition: Edition, bytes: &[u8], opened: &Opened, a: Answer)
    requires { Holds bytes.now opened.now
        × Inside opened.now (length bytes.now)
        × (narrow bytes.now ≡ true) }
{
    let mut entry = [0u8; ROW_BYTES];
    let mut rows = [0u8; ROWS_ROOM];
    widen(bytes, opened.entry, 1, &mut entry);
    widen(bytes, opened.rows, opened.count, &mut rows);
    let parts = Parts {
        rows: &rows[..ROW_BYTES * opened.count],
        entry: &entry,
        res: &bytes[opened.result..opened.code],
    };
    show_refusal(edition, bytes, opened, parts, a)
}

// What the answer to a bundle is about, on a terminal of the edition; nothing where it is accepted.
pub fn show_answer(edition: Edition, bytes: &[u8]) {
    let a = answer(edition, bytes);
    match a.number {
        ACCEPTED => return,
        BAD_BUNDLE => return show_no_bundle(bytes),
        _ => {}
    }
    let opened = open(bytes);
    if opened.number != ACCEPTED {
        return show_adds(bytes);
    }
    if is_narrow(bytes) {
        return show_narrow(edition, bytes, &opened, a);
    }
    show_wide(edition, bytes, &opened, a)
}
