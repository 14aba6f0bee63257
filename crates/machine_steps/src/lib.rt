// The run from a state, step after step, with its allowance, over lent registers and memory. (Document
// 01, "Machine run".)
#![tactic(auto)]

ghost use Rattle.std.specs.Prelude.{◌≡◌, ◌≤◌, length};
ghost use Rattle.v8.specs.Numbers.{most_words};
ghost use Rattle.step.specs.Control.{go_to};
ghost use Rattle.step.specs.Lent.{core_of};
ghost use Rattle.machine_steps.specs.Fits.{Fits};
ghost use Rattle.machine_steps.specs.Steps.{run_from, setting_of};
ghost use Rattle.machine_steps.specs.Ended.{ran_of};

use flow_code::read_all;
use flow_edges::Destination;
use machine_access::{Moved, access_to};
use policy::Policy;
use step::dispatch::one_step;
use step::moving::due;
use step::{Control, Progress, Registers};
use v8::numbers::{MOST_WORDS, NO_WORD};
use v8::{Edition, WordIndex};

// How a run ends.
#[derive(Clone, Copy)]
pub enum End {
    Returned,
    Spent,
    Fault(u8),
    Refused(u8),
}

// What a run gives: how it ended, the steps run, and the registers and codes with their marks, the
// marks of scratch words too.
#[derive(Clone, Copy)]
pub struct Outcome {
    pub end: End,
    pub steps: u64,
    pub registers: Registers,
}

// What the steps of a run give beside what they leave in the registers and in memory.
#[derive(Clone, Copy)]
pub struct Ended {
    pub end: End,
    pub steps: u64,
}

// A run that ends after some steps.
fn end_after(end: End, steps: u64) -> Ended
    ensures { result ≡ record { end = end; steps = steps } }
{
    Ended { end, steps }
}

// Runs from word 0 until the run has returned, has spent the allowance, or stops at a fault.
pub fn run_steps(
    edition: Edition,
    policy: &Policy,
    words: &[u32],
    bases: &[u32],
    returns: u32,
    frame: u32,
    registers: &mut Registers,
    memory: &mut [u8],
    allowance: u64,
) -> Ended
    requires { (length words.now ≤ most_words) × Fits policy.now bases.now frame (length memory.old) }
    ensures { ran_of result registers.new memory.new
        ≡ run_from (setting_of edition policy.now words.now bases.now returns frame) allowance 0
        (record { control = go_to 0; core = core_of registers.old memory.old }) }
{
    let readings = read_all(edition, words);
    let mut control = Control {
        at: WordIndex(0),
        pending: None,
    };
    // A `while`: must-fail/feigned_steps.edit has the count jump, which the name of a `for` cannot.
    let mut steps: u64 = 0;
    while steps < allowance {
        let i = control.at.0 as usize;
        if MOST_WORDS <= i {
            return end_after(End::Fault(NO_WORD), steps);
        }
        let r = one_step(control, registers, readings[i], returns);
        match r.progress {
            Progress::Goes => {
                control = r.control;
                steps += 1;
            }
            Progress::Returned => return end_after(End::Returned, steps + 1),
            Progress::Stopped(n) => return end_after(End::Fault(n), steps),
            Progress::Accesses(a, rd, address) => {
                match access_to(policy, bases, frame, registers, memory, a, rd, address) {
                    Moved::Done => {}
                    Moved::Missed(n) => return end_after(End::Fault(n), steps),
                }
                match due(control) {
                    Destination::To(at) => {
                        control = Control { at, pending: None };
                        steps += 1;
                    }
                    Destination::Caller => return end_after(End::Returned, steps + 1),
                }
            }
        }
    }
    end_after(End::Spent, steps)
}
