// A case run by the machine and compared with what the emulator left.
use crate::case::{Fields, Line, RETURNS, after, before, case_of};
use machine_steps::{End, Outcome};
use memory::frame::FRAME_BYTES;
use output::print_wrong;
use policy::Policy;
use records::edition::edition_of;
use records::judging::Wrong;
use states::{same_codes, same_registers};
use step::Registers;
use v8::Edition;

// What is wrong with a case.
#[derive(Clone, Copy)]
pub enum Fault {
    // The line is no case.
    Malformed,
    NotReturned,
    OtherRegisters,
    OtherCodes,
}

impl Wrong for Fault {
    fn print(&self, case: u64) {
        let text: &[u8] = match self {
            Fault::Malformed => b"not a case",
            Fault::NotReturned => b"not returned",
            Fault::OtherRegisters => b"other registers",
            Fault::OtherCodes => b"other codes",
        };
        print_wrong(b"case", case, text);
    }
}

// More steps than any case runs.
const ALLOWANCE: u64 = 1000;

// The frame address of every case.
const FRAME: u32 = 4096;

// The run of a case's routine, with no memory to reach but the frame.
fn run_of(edition: Edition, fields: &Fields, start: Registers) -> Outcome {
    let mut memory = [0; FRAME_BYTES];
    machine::run(
        edition,
        &Policy::empty(),
        &fields[..10],
        &[],
        RETURNS,
        FRAME,
        start,
        ALLOWANCE,
        &mut memory,
    )
}

// Runs a case, and compares what it leaves with what the emulator left.
fn judge_on(edition: Edition, fields: &Fields) -> Result<(), Fault> {
    let outcome = run_of(edition, fields, before(fields));
    let expected = after(fields);
    if !matches!(outcome.end, End::Returned) {
        return Err(Fault::NotReturned);
    }
    if !same_registers(&outcome.registers, &expected) {
        return Err(Fault::OtherRegisters);
    }
    if !same_codes(outcome.registers.codes, expected.codes) {
        return Err(Fault::OtherCodes);
    }
    Ok(())
}

// What is wrong with the case of a line, if something is.
pub fn judge(line: &Line) -> Result<(), Fault> {
    let Some(fields) = case_of(line) else {
        return Err(Fault::Malformed);
    };
    let Some(edition) = edition_of(fields[24]) else {
        return Err(Fault::Malformed);
    };
    judge_on(edition, &fields)
}
