// Runs a loop that does not end on the machine, to measure the speed of a step: the same loops as
// tools/plain/machine.c. Standard input has two digits: the routine, 0 of arithmetic, 1 with a load and a
// store too, or 2, 3 and 4 of loads from the first, the eighth and the last of 16 fields, and the
// allowance as a power of ten. Prints how the run ended, the steps, and r10.
#![tactic(auto)]

use machine_steps::Outcome;
use output::{STDIN_FILENO, STDOUT_FILENO};
use policy::{Field, Policy};
use states::{codes_of, end_number};
use step::{MARKS, MarkedCodes, Registers};
use v8::{ByteOffset, Edition};

// add, sll, xor, subcc, bne, its slot add, ba, nop.
const ARITHMETIC: [u32; 8] = [
    0x94028009, 0x972AA003, 0x981AC00A, 0x92A26001, 0x12BFFFFC, 0x98032001, 0x10BFFFFA, 0x01000000,
];
// ld, add, st, subcc, bne, its slot add, ba, nop.
const MEMORY: [u32; 8] = [
    0xD4022008, 0x94028009, 0xD4222008, 0x92A26001, 0x12BFFFFC, 0x98032001, 0x10BFFFFA, 0x01000000,
];

// The frame address, after the region.
const FRAME: u32 = 8192;

// Loads of the word at an offset of the region, and a branch back to the first of them, its slot a load too.
fn loads(offset: u32) -> [u32; 8] {
    let load = 0xD4022000 | offset;
    [load, load, load, load, load, load, 0x10BFFFFA, load]
}

// The policy with a field of words more in its region.
fn with_words(policy: Policy, offset: u32, count: u16) -> Policy {
    let words = Field {
        element: 5,
        permission: 3,
        target: 0,
        offset: ByteOffset(offset),
        count,
        lo: 0,
        hi: 4294967295,
    };
    policy.add_field(0, words).policy
}

// One region of 64 bytes.
fn region() -> Policy {
    Policy::empty().add_region(64).policy
}

// Its last 56 bytes are a field.
fn one_field() -> Policy {
    with_words(region(), 8, 14)
}

// Each of its words is a field.
fn sixteen_fields() -> Policy {
    (0..16).fold(region(), |policy, k| with_words(policy, 4 * k, 1))
}

// r8 is the start of the region, r9 to r12 are 0.
fn start() -> Registers {
    let mut registers = Registers {
        values: [0; 32],
        marks: [false; MARKS],
        codes: MarkedCodes {
            value: codes_of(0),
            set: false,
        },
    };
    registers.write(8, 4096);
    for r in 9..13 {
        registers.write(r, 0);
    }
    registers
}

fn report(o: Outcome) {
    io::print_decimal(STDOUT_FILENO, end_number(o.end));
    io::write_all(STDOUT_FILENO, b" ");
    io::print_decimal(STDOUT_FILENO, o.steps);
    io::write_all(STDOUT_FILENO, b" ");
    io::print_hex(STDOUT_FILENO, u64::from(o.registers.values[10]), 8);
    io::write_all(STDOUT_FILENO, b"\n");
}

// The allowance that a digit stands for.
fn allowance_of(digit: u8) -> u64 {
    match digit {
        b'3' => 1000,
        b'6' => 1000000,
        b'7' => 10000000,
        b'8' => 100000000,
        _ => 0,
    }
}

fn run_loop(policy: &Policy, words: &[u32], allowance: u64) {
    let bases = [4096u32; 1];
    let mut memory = [0u8; 184];
    report(machine::run(
        Edition::V8,
        policy,
        words,
        &bases,
        65536,
        FRAME,
        start(),
        allowance,
        &mut memory,
    ));
}

fn run_routine(routine: u8, allowance: u64) {
    match routine {
        b'1' => run_loop(&one_field(), &MEMORY, allowance),
        b'2' => run_loop(&sixteen_fields(), &loads(0), allowance),
        b'3' => run_loop(&sixteen_fields(), &loads(28), allowance),
        b'4' => run_loop(&sixteen_fields(), &loads(60), allowance),
        _ => run_loop(&one_field(), &ARITHMETIC, allowance),
    }
}

fn main() {
    let mut input = [b'0'; 2];
    io::read_full(STDIN_FILENO, &mut input);
    run_routine(input[0], allowance_of(input[1]));
}
