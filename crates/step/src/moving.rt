// Control: what follows a word, branches and the return (specs/Control.antt, specs/Step.antt).
ghost use Rattle.std.specs.Prelude.{◌≡◌, ◌<◌};
ghost use Rattle.v8.specs.Numbers.{most_words};
ghost use Rattle.flow_edges.specs.Edge.{branch_edge};
ghost use Rattle.step.specs.declared.Registers.{Registers};
ghost use Rattle.step.specs.Control.{due_at};
ghost use Rattle.step.specs.Step.{follow, branch_step, return_step};
ghost use Rattle.step.specs.Lent.{arriving, Does};

use crate::{Control, Progress, Registers, Went};
use alu::holds;
use flow_edges::Destination;
use flow_edges::transfer::{LINK, landing_of, reads_codes, slot_runs};
use v8::numbers::{UNALIGNED, UNSET_READ, WRONG_RETURN};
use v8::{Bicc, WordIndex};

// A step that stops at a fault: control stays.
#[inline(always)]
pub fn stop(control: Control, fault: u8) -> Went
    ensures { result ≡ record { progress = Progress.Stopped fault; control = control } }
{
    Went {
        progress: Progress::Stopped(fault),
        control,
    }
}

// Where control goes after the word that it stands at: to the next one, or where the transfer before
// it goes.
#[inline(always)]
pub fn due(control: Control) -> Destination
    requires { control.at.0 < most_words }
    ensures { result ≡ due_at control.at.0 control.pending }
{
    control
        .pending
        .unwrap_or(Destination::To(WordIndex(control.at.0 + 1)))
}

// Moves on past a word: to the next one, to where the transfer before it goes, or out.
#[inline(always)]
pub fn move_on(control: Control) -> Went
    requires { control.at.0 < most_words }
    ensures { result ≡ arriving control (due_at control.at.0 control.pending) }
{
    match due(control) {
        Destination::To(w) => Went {
            progress: Progress::Goes,
            control: Control {
                at: w,
                pending: None,
            },
        },
        Destination::Caller => Went {
            progress: Progress::Returned,
            control,
        },
    }
}

// Follows the edge of a branch that is taken, or the other: over the slot where that runs.
#[inline(always)]
fn follow_branch(control: Control, b: Bicc, taken: bool) -> Went
    requires { control.at.0 < most_words }
    ensures { (registers : Registers) → Does result registers control registers
        (λ l st. follow control.at.0 (branch_edge control.at.0 b taken) st.core) }
{
    let to = landing_of(control.at, b, taken);
    if slot_runs(b, taken) {
        return Went {
            progress: Progress::Goes,
            control: Control {
                at: WordIndex(control.at.0 + 1),
                pending: Some(Destination::To(to)),
            },
        };
    }
    Went {
        progress: Progress::Goes,
        control: Control {
            at: to,
            pending: None,
        },
    }
}

// A branch: 102 where its condition reads codes that are unset, else the edge that the codes decide.
#[inline(always)]
pub fn branch(control: Control, registers: &Registers, b: Bicc) -> Went
    requires { control.at.0 < most_words }
    ensures { Does result registers.now control registers.now
        (λ l st. branch_step st b) }
{
    let codes = registers.codes;
    if reads_codes(b.cond) & !codes.set {
        return stop(control, UNSET_READ);
    }
    follow_branch(control, b, holds(b.cond, codes.value))
}

// The leaf return: 102 where r15 is unset, 104 where it is no multiple of 4, 105 where it is not the
// return address; else its slot runs, the end pending.
#[inline(always)]
pub fn leave(control: Control, registers: &Registers, returns: u32) -> Went
    requires { control.at.0 < most_words }
    ensures { Does result registers.now control registers.now
        (λ l st. return_step returns st) }
{
    if !registers.is_set(LINK) {
        return stop(control, UNSET_READ);
    }
    let link = registers.value(LINK);
    if link % 4 != 0 {
        return stop(control, UNALIGNED);
    }
    if link != returns {
        return stop(control, WRONG_RETURN);
    }
    Went {
        progress: Progress::Goes,
        control: Control {
            at: WordIndex(control.at.0 + 1),
            pending: Some(Destination::Caller),
        },
    }
}
