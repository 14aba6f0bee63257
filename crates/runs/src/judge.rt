// A run made again by the machine, and compared with what the independent implementation gave.
use crate::record::{
    ALLOWANCE, BASES, Bytes, CHANGED, EDITION, END, FRAME, RETURNS, STEPS, WORDS, bases_end,
    memory_length, read_memory, words_end,
};
use crate::start::{after, before, policy_of};
use machine_steps::Outcome;
use output::print_wrong;
use records::edition::edition_of;
use records::judging::Wrong;
use records::reading::{BadRecord, Numbers};
use states::{end_number, same_codes, same_registers};
use v8::Edition;

// What is wrong with a run.
#[derive(Clone, Copy)]
pub enum Fault {
    // The record is no run.
    Malformed,
    OtherEnd,
    OtherSteps,
    OtherRegisters,
    OtherCodes,
    OtherMemory,
}

impl From<BadRecord> for Fault {
    fn from(_bad: BadRecord) -> Fault {
        Fault::Malformed
    }
}

impl Wrong for Fault {
    fn print(&self, run: u64) {
        let text: &[u8] = match self {
            Fault::Malformed => b"not a run",
            Fault::OtherEnd => b"other end",
            Fault::OtherSteps => b"other steps",
            Fault::OtherRegisters => b"other registers",
            Fault::OtherCodes => b"other codes",
            Fault::OtherMemory => b"other memory",
        };
        print_wrong(b"run", run, text);
    }
}

// What is wrong with an outcome, if something is.
fn judge_outcome(numbers: &Numbers, outcome: Outcome) -> Result<(), Fault> {
    let expected = after(numbers);
    if end_number(outcome.end) != u64::from(numbers[END]) {
        return Err(Fault::OtherEnd);
    }
    if outcome.steps != u64::from(numbers[STEPS]) {
        return Err(Fault::OtherSteps);
    }
    if !same_registers(&outcome.registers, &expected) {
        return Err(Fault::OtherRegisters);
    }
    if !same_codes(outcome.registers.codes, expected.codes) {
        return Err(Fault::OtherCodes);
    }
    Ok(())
}

// The run of the record's routine over memory.
fn run_of(edition: Edition, numbers: &Numbers, memory: &mut [u8]) -> Outcome {
    let words = words_end(numbers);
    let bases = bases_end(numbers);
    machine::run(
        edition,
        &policy_of(numbers),
        &numbers[WORDS..words],
        &numbers[BASES..bases],
        numbers[RETURNS],
        numbers[FRAME],
        before(numbers),
        u64::from(numbers[ALLOWANCE]),
        memory,
    )
}

// Makes the run again over memory, and compares all that it leaves.
fn judge_over(
    edition: Edition,
    numbers: &Numbers,
    mut memory: Bytes,
    expected: &Bytes,
) -> Result<(), Fault> {
    let length = memory_length(numbers);
    let outcome = run_of(edition, numbers, &mut memory[..length]);
    judge_outcome(numbers, outcome)?;
    if memory != *expected {
        return Err(Fault::OtherMemory);
    }
    Ok(())
}

// What the run must leave in memory: what is read, or what it began with.
fn memory_after(numbers: &Numbers, start: Result<Bytes, BadRecord>) -> Result<Bytes, BadRecord> {
    if numbers[CHANGED] == 1 {
        return read_memory(numbers);
    }
    start
}

// Reads the memory of a run, before and after, makes the run again and compares. The second part is read
// where the first is cut short too.
pub fn judge(numbers: &Numbers) -> Result<(), Fault> {
    let start = read_memory(numbers);
    let expected = memory_after(numbers, start)?;
    let start = start?;
    let Some(edition) = edition_of(numbers[EDITION]) else {
        return Err(Fault::Malformed);
    };
    judge_over(edition, numbers, start, &expected)
}
