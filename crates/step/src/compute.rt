// Instructions that change registers and codes alone.
ghost use Rattle.std.specs.Prelude.{◌<◌};
ghost use Rattle.v8.specs.Numbers.{most_words};
ghost use Rattle.step.specs.Effect.{alu_effect, shift_effect, sethi_effect};
ghost use Rattle.step.specs.Step.{plain_step};
ghost use Rattle.step.specs.Lent.{Does};

use crate::moving::{move_on, stop};
use crate::{Control, MarkedCodes, Registers, Went};
use alu::{alu, codes_of, sethi, shift};
use v8::numbers::UNSET_READ;
use v8::{AluOp, Operand, ShiftOp};

// Arithmetic and logic: 102 where an operand is unset.
#[inline(always)]
pub fn step_alu(
    control: Control,
    registers: &mut Registers,
    op: AluOp,
    cc: bool,
    rd: u8,
    rs1: u8,
    x: Operand,
) -> Went
    requires { control.at.0 < most_words }
    ensures { Does result registers.new control registers.old
        (λ l st. plain_step control (alu_effect st.core op cc rd rs1 x)) }
{
    let left = registers.register(rs1);
    let right = registers.operand(x);
    let ready = left.set & right.set;
    if !ready {
        return stop(control, UNSET_READ);
    }
    registers.write(rd, alu(op, left.value, right.value));
    if cc {
        registers.codes = MarkedCodes {
            value: codes_of(op, left.value, right.value),
            set: true,
        };
    }
    move_on(control)
}

// Shifts: 102 where an operand is unset.
#[inline(always)]
pub fn step_shift(
    control: Control,
    registers: &mut Registers,
    op: ShiftOp,
    rd: u8,
    rs1: u8,
    x: Operand,
) -> Went
    requires { control.at.0 < most_words }
    ensures { Does result registers.new control registers.old
        (λ l st. plain_step control (shift_effect st.core op rd rs1 x)) }
{
    let left = registers.register(rs1);
    let right = registers.operand(x);
    let ready = left.set & right.set;
    if !ready {
        return stop(control, UNSET_READ);
    }
    registers.write(rd, shift(op, left.value, right.value));
    move_on(control)
}

// SETHI.
#[inline(always)]
pub fn step_sethi(control: Control, registers: &mut Registers, rd: u8, imm22: u32) -> Went
    requires { control.at.0 < most_words }
    ensures { Does result registers.new control registers.old
        (λ l st. plain_step control (sethi_effect st.core rd imm22)) }
{
    registers.write(rd, sethi(imm22));
    move_on(control)
}
