// A row along an edge: what the edge narrows, and what its slot makes of the row.
use about_items::items::single;
use alu::Narrowing;
use checker::change_by;
use flow_edges::Edge;
use policy::Policy;
use rows::entries::{NUMBER, START_OR_NULL};
use rows::notes::NOTE_COMPARISON;
use rows::{Entry, Note, Row, entry_at, row_with};
use rules::{Change, narrow_entry, narrows};
use v8::Reading;
use v8::signed::BIAS;

// A row along an edge: the row after narrowing, and the row after the slot, or none where the slot breaks
// a condition.
#[derive(Clone, Copy)]
pub struct OnWay {
    pub handed: Row,
    pub made: Option<Row>,
}

// The row that a word, read as x, makes of a row; none where it breaks a condition.
pub fn made_by(policy: &Policy, row: Row, x: Reading) -> Option<Row> {
    match change_by(policy, row, x) {
        Change::Writes(r, entry, note) => Some(row_with(row, r, entry, note)),
        Change::Keeps => Some(row),
        Change::Breaks(_, _) => None,
    }
}

// A row after an edge has narrowed it; none where nothing is left of the noted entry.
fn handed_along(e: Edge, row: Row) -> Option<Row> {
    let note = row.note;
    if !narrows(e.narrowing) || note.kind != NOTE_COMPARISON {
        return Some(row);
    }
    let r = note.register;
    let entry = narrow_entry(e.narrowing, entry_at(row, r), note.number)?;
    Some(row_with(row, r, entry, note))
}

// A row along an edge, whose slot is read as x; none where nothing is left after narrowing.
pub fn along(policy: &Policy, e: Edge, x: Reading, row: Row) -> Option<OnWay> {
    let handed = handed_along(e, row)?;
    let made = if e.slot {
        made_by(policy, handed, x)
    } else {
        Some(handed)
    };
    Some(OnWay { handed, made })
}

// Whether two entries are the same; rows has no other use for a derived equality of entries.
fn same(a: Entry, b: Entry) -> bool {
    a.kind == b.kind && a.region == b.region && a.set == b.set
}

// Why an edge of a class narrowed nothing, by the number of the item `kept`, or none where it did: the
// note, and the noted entry before and after.
fn why_kept(class: Narrowing, note: Note, before: Entry, after: Entry) -> Option<u64> {
    if note.kind != NOTE_COMPARISON {
        return Some(1);
    }
    if !narrows(class) {
        return Some(2);
    }
    let is_null_asked = before.kind == START_OR_NULL && note.number == BIAS;
    if before.kind != NUMBER && !is_null_asked {
        return Some(3);
    }
    if same(before, after) {
        return Some(4);
    }
    None
}

// What an edge of a class narrowed, or why it narrowed nothing: the row before and the row that is handed on.
pub fn show_narrowing(class: Narrowing, row: Row, handed: Row) {
    let note = row.note;
    let r = note.register;
    match why_kept(class, note, entry_at(row, r), entry_at(handed, r)) {
        Some(why) => single(b"kept", why),
        None => single(b"narrowed", r as u64),
    }
}
