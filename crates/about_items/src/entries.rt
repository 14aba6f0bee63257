// Entries, notes and rows as items.
use crate::items::{done, signed, value};
use output::print;
use rows::entries::{UNSET, no_entry};
use rows::geometry::{NOTE_NAME, PLACES, entry_named};
use rows::{Entry, Note, Row, entry_at};

// The values of an entry, which end the item.
pub fn end_entry(e: Entry) {
    value(e.kind as u64);
    value(e.region as u64);
    value(e.set.step as u64);
    signed(e.set.lo);
    signed(e.set.hi);
    done();
}

// The entry that a place of a row names; there is none at the note's and after the last.
pub fn entry_of(row: Row, place: u8) -> Entry {
    if place == NOTE_NAME || PLACES <= place {
        return no_entry();
    }
    entry_at(row, entry_named(place) as u8)
}

// The entry of a place, if it is not unset.
fn show_entry(place: u8, e: Entry) {
    if e.kind == UNSET {
        return;
    }
    print(b"entry");
    value(place as u64);
    end_entry(e);
}

// A note, by the name given.
pub fn show_note(name: &[u8], n: Note) {
    print(name);
    value(n.kind as u64);
    value(n.register as u64);
    signed(n.number);
    done();
}

// The entries of a row that are not unset, and its note.
pub fn show_row(row: Row) {
    for place in 0..PLACES {
        show_entry(place, entry_of(row, place));
    }
    show_note(b"note", row.note);
}
