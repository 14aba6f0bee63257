// A listing made again, and compared with the one that is expected.
use crate::record::{
    EDITION, MOST_BYTES, NUMBER, REGISTER, WORD, entry_length, policy_of, read_entry, read_marks,
    table_length, words_of,
};
use lister::list_kinds;
use lister_rules::TABLE_MARKS;
use output::print_wrong;
use passes::Answer;
use records::edition::edition_of;
use records::judging::Wrong;
use records::reading::{BadRecord, Numbers};
use v8::Edition;
use v8::numbers::ACCEPTED;

// What is wrong with a case.
#[derive(Clone, Copy)]
pub enum Fault {
    // The record is no case.
    Malformed,
    OtherAnswer,
    OtherTable,
}

impl From<BadRecord> for Fault {
    fn from(_bad: BadRecord) -> Fault {
        Fault::Malformed
    }
}

impl Wrong for Fault {
    fn print(&self, case: u64) {
        let text: &[u8] = match self {
            Fault::Malformed => b"not a case",
            Fault::OtherAnswer => b"other answer",
            Fault::OtherTable => b"other table",
        };
        print_wrong(b"case", case, text);
    }
}

// A byte of the table before the call.
const UNTOUCHED: u8 = 170;

fn same_answer(a: Answer, numbers: &Numbers) -> bool {
    u32::from(a.number) == numbers[NUMBER]
        && a.word.0 == numbers[WORD]
        && u32::from(a.register) == numbers[REGISTER]
}

// All bytes that must stand in the table's room after the call.
fn table_after(numbers: &Numbers, marks: &[u8; MOST_BYTES]) -> [u8; MOST_BYTES] {
    let mut table = [UNTOUCHED; MOST_BYTES];
    if numbers[NUMBER] == u32::from(ACCEPTED) {
        table[..TABLE_MARKS].copy_from_slice(&marks[..TABLE_MARKS]);
    }
    table
}

// The answer to the record's routine, with the table lent.
fn answer_of(
    edition: Edition,
    numbers: &Numbers,
    row: &[u8; MOST_BYTES],
    table: &mut [u8],
) -> Answer {
    let entry = &row[..entry_length(numbers)];
    list_kinds(
        edition,
        &policy_of(numbers),
        words_of(numbers),
        entry,
        table,
    )
}

// Makes the listing again, and compares its answer and all bytes of the table and behind it.
fn judge_over(
    edition: Edition,
    numbers: &Numbers,
    row: &[u8; MOST_BYTES],
    expected: &[u8; MOST_BYTES],
) -> Result<(), Fault> {
    let mut table = [UNTOUCHED; MOST_BYTES];
    let answer = answer_of(edition, numbers, row, &mut table[..table_length(numbers)]);
    if !same_answer(answer, numbers) {
        return Err(Fault::OtherAnswer);
    }
    if table != *expected {
        return Err(Fault::OtherTable);
    }
    Ok(())
}

// Reads the entry row and the marks of a case, makes its listing again and compares. The marks are read
// where the row is cut short too.
pub fn judge(numbers: &Numbers) -> Result<(), Fault> {
    let row = read_entry(numbers);
    let marks = read_marks(numbers)?;
    let row = row?;
    let Some(edition) = edition_of(numbers[EDITION]) else {
        return Err(Fault::Malformed);
    };
    judge_over(edition, numbers, &row, &table_after(numbers, &marks))
}
