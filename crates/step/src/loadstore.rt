// Loads and stores: what they read of the registers, and what they ask of memory.
ghost use Rattle.std.specs.Prelude.{◌≡◌, ◌<◌, ◌≤◌};
ghost use Rattle.v8.specs.Numbers.{most_words};
ghost use Rattle.step.specs.Effect.{aim_of, moved_set, access_effect};
ghost use Rattle.step.specs.Step.{plain_step};
ghost use Rattle.step.specs.Lent.{Does};

use crate::moving::stop;
use crate::{Aim, Control, Progress, Registers, Went};
use access::{addend_of, width_of};
use alu::sum;
use v8::numbers::{UNALIGNED, UNSET_READ};
use v8::{Access, Displacement};

// Where an access aims: 102 where what it reads is unset, `others` being the rest of that, 104 where
// the address is no multiple of the width.
#[inline(always)]
#[tactic(auto, unfolding(crate::specs::Effect::aim_in))]
fn aim(registers: &Registers, others: bool, rs1: u8, d: Displacement, width: u32) -> Aim
    requires { 1 ≤ width }
    ensures { result ≡ aim_of registers.now others rs1 d width }
{
    let left = registers.register(rs1);
    let right = registers.operand(addend_of(d));
    let ready = left.set & right.set & others;
    if !ready {
        return Aim::Missed(UNSET_READ);
    }
    let address = sum(left.value, right.value);
    if address % width == 0 {
        return Aim::Address(address);
    }
    Aim::Missed(UNALIGNED)
}

// Whether what an access moves is set: a store reads its register, a load reads no other.
#[inline(always)]
fn moved_set(registers: &Registers, a: Access, rd: u8) -> bool
    ensures { result ≡ moved_set registers.now.marks a rd }
{
    match a {
        Access::Loads(_) => true,
        Access::Stores(_) => registers.is_set(rd),
    }
}

// A load or a store: 102 and 104 in this order. What is left is the access itself, which the run
// does: whether it lies in a field, what it moves, and where control goes then.
#[inline(always)]
pub fn step_access(
    control: Control,
    registers: &Registers,
    a: Access,
    rd: u8,
    rs1: u8,
    d: Displacement,
) -> Went
    requires { control.at.0 < most_words }
    ensures { Does result registers.now control registers.now
        (λ l st. plain_step control (access_effect l st.core a rd rs1 d)) }
{
    let width = width_of(a);
    let moved = moved_set(registers, a, rd);
    match aim(registers, moved, rs1, d, width) {
        Aim::Address(address) => Went {
            progress: Progress::Accesses(a, rd, address),
            control: Control {
                at: control.at,
                pending: None,
            },
        },
        Aim::Missed(n) => stop(control, n),
    }
}
