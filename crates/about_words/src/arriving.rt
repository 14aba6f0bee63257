// Where a row arrives: at a word, whose row it has to fit, or at the caller, with the result.
ghost use Rattle.std.specs.Prelude.{IfSome, length};
ghost use Rattle.rows.specs.Geometry.{RowLies};

use crate::Routine;
use about_items::entries::{end_entry, entry_of, show_note, show_row};
use about_items::items::{bare, single};
use flow_edges::Destination;
use output::print;
use rows::geometry::{ENTRY_BYTES, NOTE_NAME, ROW_BYTES};
use rows::{Entry, Row, entry_at, fits, misfit, read_entry, read_row};
use v8::numbers::MOST_WORDS;

// r8, which has the result.
const RESULT: u8 = 8;

// What there is and what is asked in its place.
fn show_entries(has: Entry, asks: Entry) {
    print(b"has");
    end_entry(has);
    print(b"asks");
    end_entry(asks);
}

// A place that does not fit: what a row has there and what another asks.
fn show_misfit(place: u8, has: Row, asks: Row) {
    single(b"misfit", place as u64);
    if place == NOTE_NAME {
        show_note(b"has-note", has.note);
        return show_note(b"asks-note", asks.note);
    }
    show_entries(entry_of(has, place), entry_of(asks, place));
}

impl Routine<'_> {
    // Where the row of a word begins, if there is such a word.
    fn row_place(&self, at: usize) -> Option<usize>
        ensures { IfSome result (λ place. RowLies place (length self.now.rows.now)) }
    {
        if MOST_WORDS <= at {
            return None;
        }
        let place = ROW_BYTES * at;
        if self.rows.len() < place + ROW_BYTES {
            return None;
        }
        Some(place)
    }

    // The row of a word.
    pub fn row_at(&self, at: usize) -> Option<Row> {
        let place = self.row_place(at)?;
        Some(read_row(self.rows, place))
    }

    // The lowest place of a row that does not fit the row of a word; none where there is no such word.
    fn misfit_at(&self, at: usize, row: Row) -> Option<u8> {
        let place = self.row_place(at)?;
        misfit(row, self.rows, place)
    }

    // What the result entry asks, if there is one.
    fn result_asked(&self) -> Option<Entry> {
        if self.res.len() < ENTRY_BYTES {
            return None;
        }
        Some(read_entry(self.res, 0))
    }

    // Whether a row that arrives at the end of an edge is refused.
    pub fn is_refused_at(&self, to: Destination, row: Row) -> bool {
        match to {
            Destination::To(next) => self.misfit_at(next.0 as usize, row).is_some(),
            Destination::Caller => match self.result_asked() {
                Some(asked) => !fits(entry_at(row, RESULT), asked),
                None => false,
            },
        }
    }

    // What does not fit where a row arrives at a word.
    pub fn show_misfit_at(&self, at: usize, row: Row) {
        if let Some(place) = self.misfit_at(at, row) {
            show_misfit(place, row, self.row_at(at).unwrap_or(row));
        }
    }

    fn show_result(&self, row: Row) {
        if let Some(asked) = self.result_asked() {
            single(b"misfit", RESULT as u64);
            show_entries(entry_at(row, RESULT), asked);
        }
    }

    // The row that an edge ends with, and what does not fit there.
    pub fn show_arrival(&self, to: Destination, row: Row) {
        bare(b"made");
        show_row(row);
        match to {
            Destination::To(next) => self.show_misfit_at(next.0 as usize, row),
            Destination::Caller => self.show_result(row),
        }
    }
}
