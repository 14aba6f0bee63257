// The passes over the words, each to the first word that breaks its condition (specs/Passes.antt). Handed
// over is what the words are read as, and which of them are examined.
ghost use Rattle.std.specs.Prelude.{◌≡◌, ◌*◌, ◌<◌, ◌≤◌, length};
ghost use Rattle.v8.specs.Numbers.{most_words};
ghost use Rattle.flow_code.specs.Lent.{code_of, Formed, Examines};
ghost use Rattle.flow.specs.Flow.{flow_with};
ghost use Rattle.rows.specs.Geometry.{row_bytes, RowIn};
ghost use Rattle.passes.specs.Answer.{pass_of};
ghost use Rattle.passes.specs.Passes.{row_pass, if_read, read_pass, flow_then, flow_pass, entry_pass};

use crate::Answer;
use crate::answers::{accept, need, refuse, unless_fault};
use flow::flows;
use flow_code::transfers;
use flow_writes::{is_callers, written_by};
use policy::Policy;
use rows::geometry::{PLACES, ROW_BYTES};
use rows::{formed_at, misfit, read_row};
use v8::numbers::{ACCEPTED, BAD_FLOW, BAD_ROW, CALLERS_REGISTER, ENTRY_MISFIT, MOST_WORDS};
use v8::{Reading, WordIndex};

// Pass 1: the rows are well formed; the lowest badly formed place of the earliest such row is named.
pub fn row_pass(policy: &Policy, rows: &[u8], count: WordIndex) -> Answer
    requires { (count.0 ≤ most_words) × (row_bytes * count.0 ≡ length rows.now) }
    ensures { result ≡ pass_of (row_pass policy.now rows.now) count.0 }
{
    // Counted by hand: document 01 names the form, nested loops that a label leaves at the first badly
    // formed place, and after them both counts tell which place that is.
    let mut at = WordIndex(0);
    let mut place: u8 = 0;
    'rows: while at.0 < count.0 {
        place = 0;
        while place < PLACES {
            if !formed_at(&policy.regions, rows, ROW_BYTES * at.0 as usize, place) {
                break 'rows;
            }
            place += 1;
        }
        at = WordIndex(at.0 + 1);
    }
    if at.0 < count.0 {
        return refuse(BAD_ROW, at, place);
    }
    accept()
}

// Pass 2 at a word, read as x: the word is read.
fn if_read(at: WordIndex, x: Reading) -> Answer
    ensures { result ≡ if_read at.0 x }
{
    match x {
        Reading::Read(_) => accept(),
        Reading::Unread(number) => refuse(number, at, 0),
    }
}

// Pass 2: the words are read.
pub fn read_pass(readings: &[Reading; MOST_WORDS], count: usize) -> Answer
    requires { Formed readings.now count }
    ensures { result ≡ pass_of (read_pass (code_of readings.now count)) count }
{
    for i in 0..count {
        let found = if_read(WordIndex(i as u32), readings[i]);
        if found.number != ACCEPTED {
            return found;
        }
    }
    accept()
}

// Pass 3 at a word, in a slot or not, examined as an ordinary word or not, read as x: its flow, and then
// that it writes no register of the caller.
fn flow_at(count: usize, at: WordIndex, in_slot: bool, ordinary: bool, x: Reading) -> Answer
    requires { at.0 < most_words }
    ensures { result ≡ flow_then (flow_with count in_slot ordinary at.0 x) at.0 x }
{
    if !flows(count, at, in_slot, ordinary, x) {
        return refuse(BAD_FLOW, at, 0);
    }
    let register = written_by(x);
    need(!is_callers(register), CALLERS_REGISTER, at, register)
}

// Pass 3: the words' flow, and the registers that they write.
pub fn flow_pass(
    readings: &[Reading; MOST_WORDS],
    count: usize,
    marks: &[bool; MOST_WORDS],
) -> Answer
    requires { Formed readings.now count × Examines marks.now (code_of readings.now count) }
    ensures { result ≡ pass_of (flow_pass (code_of readings.now count)) count }
{
    let mut in_slot = false;
    for i in 0..count {
        let x = readings[i];
        let found = flow_at(count, WordIndex(i as u32), in_slot, marks[i], x);
        if found.number != ACCEPTED {
            return found;
        }
        in_slot = transfers(x);
    }
    accept()
}

// Pass 15: the entry row fits row 0.
#[tactic(auto, unfolding(crate::specs::Passes::entry_pass))]
pub fn entry_pass(rows: &[u8], entry: &[u8]) -> Answer
    requires { RowIn 0 (length rows.now) × RowIn 0 (length entry.now) }
    ensures { result ≡ entry_pass rows.now entry.now }
{
    let flaw = misfit(read_row(entry, 0), rows, 0);
    unless_fault(ENTRY_MISFIT, WordIndex(0), flaw)
}
