// The machine: the run of a routine, what refuses it and how it begins. (Document 01, "Machine run".)
#![tactic(auto)]

ghost use Rattle.std.specs.Prelude.{◌≡◌};
ghost use Rattle.machine.specs.Run.{end_number, refusal_of, run_of};
ghost use Rattle.machine_steps.specs.Ended.{left_by};

use machine_place::placed;
use machine_steps::{End, Outcome, run_steps};
use policy::Policy;
use step::Registers;
use v8::Edition;
use v8::numbers::{ACCEPTED, BAD_PLACEMENT, BAD_POLICY, BAD_SHAPE, MOST_WORDS};

// The number that refuses a run, or 0.
#[tactic(auto, unfolding(crate::specs::Run::refusal_of))]
fn refusal(
    policy: &Policy,
    words: &[u32],
    bases: &[u32],
    returns: u32,
    frame: u32,
    memory: &[u8],
) -> u8
    ensures { result ≡ refusal_of policy.now words.now bases.now returns frame memory.now }
{
    if !policy.well_formed() {
        return BAD_POLICY;
    }
    if words.is_empty() || MOST_WORDS < words.len() {
        return BAD_SHAPE;
    }
    if !placed(policy, bases, returns, frame, memory) {
        return BAD_PLACEMENT;
    }
    ACCEPTED
}

// Runs a routine, on a terminal of the edition: refused with 20, 21 or 22, or step after step from word
// 0 until it has returned, has spent the allowance, or stops at a fault. Refused, it changes nothing.
// The six scratch words are unset at the start, and where it is refused.
pub fn run(
    edition: Edition,
    policy: &Policy,
    words: &[u32],
    bases: &[u32],
    returns: u32,
    frame: u32,
    mut registers: Registers,
    allowance: u64,
    memory: &mut [u8],
) -> Outcome
    ensures ran { left_by result memory.new
        ≡ run_of edition policy.now words.now bases.now returns frame registers allowance memory.old }
    ensures number { end_number result.end
        ≡ end_number
        (run_of edition policy.now words.now bases.now returns frame registers allowance memory.old).outcome.end }
{
    let number = refusal(policy, words, bases, returns, frame, memory);
    if number != ACCEPTED {
        registers.unset_scratch();
        return Outcome {
            end: End::Refused(number),
            steps: 0,
            registers,
        };
    }
    registers.values[0] = 0;
    registers.marks[0] = true;
    registers.unset_scratch();
    let r = run_steps(
        edition,
        policy,
        words,
        bases,
        returns,
        frame,
        &mut registers,
        memory,
        allowance,
    );
    Outcome {
        end: r.end,
        steps: r.steps,
        registers,
    }
}
