// One record: a header of nine bytes, and then the bundle. Numbers are big-endian.
//   0        the edition, 8 or 9
//   1        the expected answer's number
//   2        its register
//   3 and 4  its word
//   5 to 8   the bundle's length
ghost use Rattle.std.specs.Prelude.{◌≤◌};

use crate::Answers;
use output::{line_of, print, print_line, print_number, print_wrong};
use passes::Answer;
use records::edition::edition_of;
use records::judging::Wrong;
use records::reading::{BadRecord, fill, read_head};
use v8::{Edition, WordIndex};

// The longest bundle that is read: one byte more than any that is well-formed.
const ROOM: usize = 62469;

// What is wrong with a bundle.
#[derive(Clone, Copy)]
pub enum Fault {
    // There is no such edition, the bundle is too long, or the record is cut short.
    Bad,
    // The answers differ.
    Other { answered: Answer, expected: Answer },
}

// What a bundle of a whole record shows.
pub type Verdict = Result<(), Fault>;

impl From<BadRecord> for Fault {
    fn from(_bad: BadRecord) -> Fault {
        Fault::Bad
    }
}

// A bundle's answer on a line: number, word and register.
fn print_answer(bundle: u64, what: &[u8], a: Answer) {
    print(b"bundle ");
    print_number(bundle);
    print(what);
    print_line(line_of(
        u64::from(a.number),
        u64::from(a.word.0),
        u64::from(a.register),
    ));
}

impl Wrong for Fault {
    fn print(&self, bundle: u64) {
        match self {
            Fault::Bad => print_wrong(b"bundle", bundle, b"bad data"),
            Fault::Other { answered, expected } => {
                print_answer(bundle, b": answered ", *answered);
                print_answer(bundle, b": expected ", *expected);
            }
        }
    }
}

// By hand, since an `Answer` of crate passes has no equality.
fn same(a: Answer, b: Answer) -> bool {
    a.number == b.number && a.word.0 == b.word.0 && a.register == b.register
}

// What a header says: the edition, the answer that is expected and the bundle's length.
#[derive(Clone, Copy)]
pub struct Head {
    edition: Edition,
    expected: Answer,
    length: usize,
    ghost fits: { length ≤ 62469 },
}

// The header in its bytes.
fn head_in(header: [u8; 9]) -> Result<Head, BadRecord> {
    let [edition, number, register, w1, w0, l3, l2, l1, l0] = header;
    let edition = edition_of(u32::from(edition)).ok_or(BadRecord)?;
    let length = u32::from_be_bytes([l3, l2, l1, l0]) as usize;
    if length > ROOM {
        return Err(BadRecord);
    }
    let word = WordIndex(u32::from(u16::from_be_bytes([w1, w0])));
    Ok(Head {
        edition,
        expected: Answer {
            number,
            word,
            register,
        },
        length,
    })
}

// Reads the bundle behind a header, and says what is wrong where the answer to it is another than the
// expected one.
fn judge<A: Answers>(header: [u8; 9], answers: &A) -> Result<Verdict, BadRecord> {
    let head = head_in(header)?;
    let mut room = [0; ROOM];
    let bytes = &mut room[..head.length];
    if !fill(bytes) {
        return Err(BadRecord);
    }
    let answered = answers.answer(head.edition, bytes);
    if same(answered, head.expected) {
        return Ok(Ok(()));
    }
    Ok(Err(Fault::Other {
        answered,
        expected: head.expected,
    }))
}

// Reads the next record, and judges its bundle.
pub fn judge_next<A: Answers>(answers: &A) -> Option<Result<Verdict, BadRecord>> {
    let header = read_head()?;
    Some(header.and_then(|header| judge(header, answers)))
}
