// One line of a listing, judged.
ghost use Rattle.std.specs.Prelude.{◌≤◌, length};

use crate::text::is_text_of;
use hex_words::word_of;
use output::print_wrong;
use records::judging::Wrong;
use v8::numbers::{NOT_READ, PRIVILEGED};
use v8::{Edition, Reading, read_word};
use writer::write_instruction;

// What a line shows.
#[derive(Clone, Copy)]
pub enum Shown {
    // A word of the subset, read as the text says and written back.
    Kept,
    // The same on the newer terminal, and the older one refuses it with 2.
    KeptByNewer,
    // A word outside the subset, refused with 2 as the line says.
    Refused,
    // A privileged word, refused with 24 as the line says.
    Privileged,
}

// What is wrong with a line.
#[derive(Clone, Copy)]
pub enum Fault {
    // No word and text.
    Malformed,
    // A word of the subset that is not read.
    NotRead,
    // Read, and its text is not the line's.
    ReadOtherwise,
    NotWrittenBack,
    // A word outside the subset that is read.
    ReadOutside,
    // Such a word, refused with another number than the line says.
    OtherNumber,
}

impl Wrong for Fault {
    fn print(&self, line: u64) {
        let text: &[u8] = match self {
            Fault::Malformed => b"not a word and its text",
            Fault::NotRead => b"not read",
            Fault::ReadOtherwise => b"read as something else",
            Fault::NotWrittenBack => b"not written back",
            Fault::ReadOutside => b"read, but outside the subset",
            Fault::OtherNumber => b"refused with another number",
        };
        print_wrong(b"line", line, text);
    }
}

// A word that the terminal reads, with its text.
fn judge_inside(edition: Edition, w: u32, text: &[u8]) -> Result<Shown, Fault> {
    let Reading::Read(x) = read_word(edition, w) else {
        return Err(Fault::NotRead);
    };
    if !is_text_of(x, text) {
        return Err(Fault::ReadOtherwise);
    }
    if write_instruction(edition, x) != Some(w) {
        return Err(Fault::NotWrittenBack);
    }
    Ok(Shown::Kept)
}

// A word that the terminal refuses, with the number.
fn judge_outside(edition: Edition, w: u32, number: u8) -> Result<Shown, Fault> {
    match read_word(edition, w) {
        Reading::Read(_) => Err(Fault::ReadOutside),
        Reading::Unread(given) if given != number => Err(Fault::OtherNumber),
        Reading::Unread(PRIVILEGED) => Ok(Shown::Privileged),
        Reading::Unread(_) => Ok(Shown::Refused),
    }
}

// The number that a text begins with where its word is outside the subset: `!2 ` or `!24 `.
fn number_in(text: &[u8]) -> Option<u8> {
    if text.starts_with(b"!2 ") {
        Some(NOT_READ)
    } else if text.starts_with(b"!24 ") {
        Some(PRIVILEGED)
    } else {
        None
    }
}

// A word on both terminals. Words that only the newer one reads are marked `V9 `.
fn judge_word(w: u32, text: &[u8]) -> Result<Shown, Fault> {
    if let Some(text) = text.strip_prefix(b"V9 ") {
        judge_outside(Edition::V8, w, NOT_READ)?;
        judge_inside(Edition::V9, w, text)?;
        return Ok(Shown::KeptByNewer);
    }
    match number_in(text) {
        Some(number) => {
            judge_outside(Edition::V8, w, number)?;
            judge_outside(Edition::V9, w, number)
        }
        None => {
            judge_inside(Edition::V8, w, text)?;
            judge_inside(Edition::V9, w, text)
        }
    }
}

// A line has eight digits, a space and a text; the shortest text is `retl`.
pub fn judge(line: &[u8]) -> Result<Shown, Fault> {
    if line.len() < 13 || line[8] != b' ' {
        return Err(Fault::Malformed);
    }
    let w = word_of(line).ok_or(Fault::Malformed)?;
    judge_word(w, &line[9..])
}
