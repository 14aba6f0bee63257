// The call that checks a routine and then runs it, with the running guarantee as its contract.
// (Document 01, "Demand 3, the running guarantee".)
#![tactic(auto)]

ghost use Rattle.std.specs.Prelude.{◌≡◌};
ghost use Rattle.guarantee_run.specs.Checked.{checked_left, checked_run_of, HoldsTo};

use checker::check;
use machine::run;
use machine_steps::{End, Outcome};
use passes::Answer;
use policy::Policy;
use step::Registers;
use v8::Edition;
use v8::numbers::ACCEPTED;

// What the check answers, and what the run gives; where the check refuses, nothing is run.
#[derive(Clone, Copy)]
pub struct CheckedRun {
    pub answer: Answer,
    pub outcome: Outcome,
}

// Checks a routine and, where the check accepts, runs it, both for a terminal of the edition. Refused,
// it changes nothing.
pub fn checked_run(
    edition: Edition,
    policy: &Policy,
    words: &[u32],
    rows: &[u8],
    entry: &[u8],
    res: &[u8],
    bases: &[u32],
    returns: u32,
    frame: u32,
    mut registers: Registers,
    allowance: u64,
    memory: &mut [u8],
) -> CheckedRun
    ensures ran { checked_left result memory.new
        ≡ checked_run_of edition policy.now words.now rows.now entry.now res.now
        bases.now returns frame registers allowance memory.old }
    ensures guaranteed { HoldsTo edition policy.now words.now entry.now res.now
        bases.now returns frame registers allowance memory.old (checked_left result memory.new) }
{
    let answer = check(edition, policy, words, rows, entry, res);
    if answer.number != ACCEPTED {
        registers.unset_scratch();
        return CheckedRun {
            answer,
            outcome: Outcome {
                end: End::Refused(answer.number),
                steps: 0,
                registers,
            },
        };
    }
    let outcome = run(
        edition, policy, words, bases, returns, frame, registers, allowance, memory,
    );
    CheckedRun { answer, outcome }
}
