// One step of the machine: V8's effect of each instruction of the subset on registers and codes, and
// which access to the lent memory it makes. (Document 01, "Machine run".)
//
// All functions here but the methods of `Registers` are always inlined, so that the loop of a run goes on
// from each way through a step at once. Where they are not, how a step went is packed into a number, and
// the number is taken apart again on every step.
#![tactic(auto)]

// Registers read and written.
mod regs;
// The marks of scratch words.
mod scratch;
// Instructions that change registers and codes alone.
mod compute;
// Loads and stores, up to the access itself.
mod loadstore;
// One step.
pub mod dispatch;
// Control: what follows a word, branches and the return.
pub mod moving;

use alu::Codes;
use flow_edges::Destination;
use v8::{Access, WordIndex};

// How many marks there are: one for each register, and after them one for each scratch word.
pub const MARKS: usize = 38;
// The mark of the first scratch word.
pub const FIRST_SCRATCH: usize = 32;

// The condition codes, marked set or unset.
#[derive(Clone, Copy)]
pub struct MarkedCodes {
    pub value: Codes,
    pub set: bool,
}

// Registers r0 to r31 and the condition codes, each marked set or unset, with the marks of the six
// scratch words.
#[derive(Clone, Copy)]
pub struct Registers {
    pub values: [u32; 32],
    pub marks: [bool; MARKS],
    pub codes: MarkedCodes,
}

// What is read of a register, with its mark.
#[derive(Clone, Copy)]
pub struct Marked {
    pub value: u32,
    pub set: bool,
}

// Where control stands: the next word, and, where that is a slot, the place that its transfer goes to.
#[derive(Clone, Copy)]
pub struct Control {
    pub at: WordIndex,
    pub pending: Option<Destination>,
}

// Where an access aims: at an address, or the fault that it meets first.
#[derive(Clone, Copy)]
pub enum Aim {
    Address(u32),
    Missed(u8),
}

// How a step went: on to the next word, returned, or stopped at a fault; or it is an access that moves
// a register at an address, and goes on once that is done.
#[derive(Clone, Copy)]
pub enum Progress {
    Goes,
    Returned,
    Stopped(u8),
    Accesses(Access, u8, u32),
}

// What a step gives beside what it leaves in the registers: how it went, and where control stands then
// if it goes.
#[derive(Clone, Copy)]
pub struct Went {
    pub progress: Progress,
    pub control: Control,
}
