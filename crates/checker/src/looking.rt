// The words' pass: each word that is examined, with its row (specs/Passes.antt).
ghost use Rattle.std.specs.Prelude.{◌≡◌, true, cond, ◌+◌, ◌*◌, ◌<◌, ◌≤◌, length};
ghost use Rattle.v8.specs.Numbers.{most_words};
ghost use Rattle.v8.specs.declared.Reading.TheVariants.{Read};
ghost use Rattle.flow_code.specs.Lent.{code_of, Formed, Examines};
ghost use Rattle.rows.specs.Geometry.{row_bytes, entry_bytes, RowIn};
ghost use Rattle.passes.specs.Answer.{accepted, passes, pass_of};
ghost use Rattle.passes.specs.Passes.{flow_pass};
ghost use Rattle.checker.specs.Passes.{look, word_pass};
ghost use Rattle.checker.specs.Lent.{EdgesIn, ReadingIn};

use crate::arrival::row_at;
use crate::edges::edges_of;
use flow_code::reading_at;
use passes::Answer;
use passes::answers::{accept, refuse};
use policy::Policy;
use rows::row_with;
use rules::{Change, change_of};
use v8::numbers::{ACCEPTED, MOST_WORDS};
use v8::{Instruction, Reading, WordIndex};

// An instruction in its row: its own conditions, then its edges. Its slot is read as x.
fn look_at(
    policy: &Policy,
    rows: &[u8],
    res: &[u8],
    at: WordIndex,
    instruction: Instruction,
    x: Reading,
) -> Answer
    requires { (at.0 < most_words) × (entry_bytes ≤ length res.now) × RowIn at.0 (length rows.now) × EdgesIn at.0 instruction (length rows.now) }
    ensures { result ≡ look policy.now rows.now res.now at.0 (Read instruction) x }
{
    let mut row = row_at(rows, at);
    match change_of(policy, row, instruction) {
        Change::Writes(register, entry, note) => {
            row = row_with(row, register, entry, note);
        }
        Change::Keeps => {}
        Change::Breaks(number, register) => {
            return refuse(number, at, register);
        }
    }
    edges_of(policy, rows, res, at, instruction, x, row)
}

// A word read as x, its slot as `slot`: looked at where it is examined.
fn word_in(
    policy: &Policy,
    rows: &[u8],
    res: &[u8],
    at: WordIndex,
    examined: bool,
    x: Reading,
    slot: Reading,
) -> Answer
    requires { (at.0 < most_words)
        × (entry_bytes ≤ length res.now)
        × RowIn at.0 (length rows.now)
        × (examined ≡ true → ReadingIn at.0 x (length rows.now)) }
    ensures { result ≡ cond examined (look policy.now rows.now res.now at.0 x slot) accepted }
{
    if !examined {
        return accept();
    }
    match x {
        Reading::Read(instruction) => look_at(policy, rows, res, at, instruction, slot),
        Reading::Unread(number) => refuse(number, at, 0),
    }
}

// The words' pass, where the flow is right.
pub fn word_pass(
    policy: &Policy,
    readings: &[Reading; MOST_WORDS],
    count: usize,
    marks: &[bool; MOST_WORDS],
    rows: &[u8],
    res: &[u8],
) -> Answer
    requires { Formed readings.now count
        × Examines marks.now (code_of readings.now count)
        × (row_bytes * count ≡ length rows.now)
        × (entry_bytes ≤ length res.now)
        × (passes (pass_of (flow_pass (code_of readings.now count)) count) ≡ true) }
    ensures { result ≡ pass_of (word_pass policy.now (code_of readings.now count) rows.now res.now) count }
{
    for i in 0..count {
        let x = readings[i];
        let slot = reading_at(readings, i + 1);
        let found = word_in(policy, rows, res, WordIndex(i as u32), marks[i], x, slot);
        if found.number != ACCEPTED {
            return found;
        }
    }
    accept()
}
