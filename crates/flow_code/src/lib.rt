// The words of a routine as they are read, and which of them are examined (specs/Readings.antt).
#![tactic(auto)]

ghost use Rattle.std.specs.Prelude.{◌≡◌, ◌&&◌, ◌<◌, ◌≤◌, length};
ghost use Rattle.v8.specs.Numbers.{most_words};
ghost use Rattle.flow_code.specs.Readings.{readings_of, reading_at, transfers, ends_at, lands_on};
ghost use Rattle.flow_code.specs.Lent.{code_of, Formed, ReadAs, Outside, Examines, Adds};

use flow_edges::edges::edge_of;
use flow_edges::transfer::is_transfer;
use flow_edges::{Destination, Edge};
use v8::numbers::{MOST_WORDS, NOT_READ};
use v8::{Edition, Reading, WordIndex, read_word};

// Reads all words, once, as a terminal of the edition does: what no word stands at is not read.
pub fn read_all(edition: Edition, words: &[u32]) -> [Reading; MOST_WORDS]
    requires { length words.now ≤ most_words }
    ensures { ReadAs result (length words.now) (readings_of edition words.now) }
{
    let mut readings = [Reading::Unread(NOT_READ); MOST_WORDS];
    for (i, &word) in words.iter().enumerate() {
        readings[i] = read_word(edition, word);
    }
    readings
}

// What the word at an index is read as; what no word stands at is not read.
pub fn reading_at(readings: &[Reading; MOST_WORDS], at: usize) -> Reading
    requires { length readings.now ≡ most_words }
    ensures { result ≡ reading_at readings.now at }
{
    readings
        .get(at)
        .copied()
        .unwrap_or(Reading::Unread(NOT_READ))
}

// Whether a word is read as a transfer: a branch or the return.
pub fn transfers(x: Reading) -> bool
    ensures { result ≡ transfers x }
{
    match x {
        Reading::Read(instruction) => is_transfer(instruction),
        Reading::Unread(_) => false,
    }
}

// Which words are no slots: each that does not follow a transfer.
fn outside_slots(readings: &[Reading; MOST_WORDS], count: usize) -> [bool; MOST_WORDS]
    requires { Formed readings.now count }
    ensures { (length result ≡ most_words) × Outside result (code_of readings.now count) }
{
    let mut marks = [true; MOST_WORDS];
    for i in 1..count {
        marks[i] = !transfers(readings[i - 1]);
    }
    marks
}

// Marks the word where an edge ends, if there is an edge and it ends at a word.
fn mark_end(marks: &mut [bool; MOST_WORDS], e: Edge)
    requires { length marks.old ≡ most_words }
    ensures { Adds marks.old marks.new (λ w. e.exists && ends_at e.to w) }
{
    if !e.exists {
        return;
    }
    if let Destination::To(w) = e.to {
        let i = w.0 as usize;
        if i < MOST_WORDS {
            marks[i] = true;
        }
    }
}

// Marks the word that the taken edge of a word, read as x, lands on.
fn mark_target(marks: &mut [bool; MOST_WORDS], at: WordIndex, x: Reading)
    requires { (length marks.old ≡ most_words) × (at.0 < most_words) }
    ensures { Adds marks.old marks.new (lands_on at.0 x) }
{
    if let Reading::Read(instruction) = x {
        mark_end(marks, edge_of(at, instruction, true));
    }
}

// Which words are examined as ordinary ones: those that are no slots, and those that a taken edge
// lands on.
pub fn examine_all(readings: &[Reading; MOST_WORDS], count: usize) -> [bool; MOST_WORDS]
    requires { Formed readings.now count }
    ensures { Examines result (code_of readings.now count) }
{
    let mut marks = outside_slots(readings, count);
    for i in 0..count {
        mark_target(&mut marks, WordIndex(i as u32), readings[i]);
    }
    marks
}
