// The search for rows, as an open call.
ghost use Rattle.std.specs.Prelude.{◌≡◌, ◌≤◌, ◌*◌, length};
ghost use Rattle.v8.specs.Numbers.{most_words};
ghost use Rattle.rows.specs.Geometry.{row_bytes};
ghost use Rattle.checker.specs.Passes.{check_of};

use crate::blaming::{blame, from_growth};
use attempt::{Asked, fill};
use checker::check;
use drafts::{TABLE_ENTRIES, no_row};
use flow_code::{examine_all, read_all};
use passes::{Answer, flow_pass, read_pass};
use passes_shape::shape_ok;
use policy::Policy;
use rows::geometry::ROW_BYTES;
use v8::Edition;
use v8::numbers::{ACCEPTED, MOST_WORDS};

// Which words have a row that is given: its first byte is not 0.
fn given_of(rows: &[u8], count: usize) -> [bool; MOST_WORDS]
    requires { (count ≤ most_words) × (row_bytes * count ≤ length rows.now) }
{
    let mut given = [false; MOST_WORDS];
    for w in 0..count {
        given[w] = rows[ROW_BYTES * w] != 0;
    }
    given
}

// Whether the words are read and their flow is right: if not, no row can mend that.
fn flows(edition: Edition, words: &[u32]) -> bool
    requires { length words.now ≤ most_words }
{
    let count = words.len();
    let readings = read_all(edition, words);
    let examined = examine_all(&readings, count);
    let read = read_pass(&readings, count);
    let flow = flow_pass(&readings, count, &examined);
    read.number == ACCEPTED && flow.number == ACCEPTED
}

// Writes the rows that are not given, as they are found: where an entry that grows is to blame for a
// refusal, those that show it.
fn search(asked: &Asked, rows: &mut [u8])
    requires { row_bytes * length asked.now.words.now ≡ length rows.old }
{
    let first = asked.try_rows(&[None; TABLE_ENTRIES], rows);
    if from_growth(first.answer.number) {
        let limits = blame(asked, rows, &first.growths, first.answer);
        asked.try_rows(&limits, rows);
    }
}

// Writes rows that say nothing where none is given. (Not inlined, so that a search has no room for them.)
#[inline(never)]
fn write_none(asked: &Asked, rows: &mut [u8])
    requires { row_bytes * length asked.now.words.now ≡ length rows.old }
{
    let none = [no_row(); MOST_WORDS];
    fill(asked.words.len(), asked.given, &none, rows);
}

// Writes the rows that are not given: those that say nothing where no row can mend what is wrong.
fn write_rows(asked: &Asked, rows: &mut [u8])
    requires { row_bytes * length asked.now.words.now ≡ length rows.old }
{
    if flows(asked.edition, asked.words) {
        search(asked, rows);
    } else {
        write_none(asked, rows);
    }
}

// Finds rows for a routine, for a terminal of the edition, and checks them. A row that is not there is
// found; the others stay. The answer is the check's to the rows as they are then.
pub fn find_rows(
    edition: Edition,
    policy: &Policy,
    words: &[u32],
    rows: &mut [u8],
    entry: &[u8],
    res: &[u8],
) -> Answer
    ensures { result ≡ check_of edition policy.now words.now rows.new entry.now res.now }
{
    if policy.well_formed() && shape_ok(policy, words, rows, entry, res) {
        let given = given_of(rows, words.len());
        let asked = Asked {
            edition,
            policy,
            words,
            given: &given,
            entry,
            res,
        };
        write_rows(&asked, rows);
    }
    check(edition, policy, words, rows, entry, res)
}
