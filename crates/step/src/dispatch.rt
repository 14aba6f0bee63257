// One step of the machine: the instruction that is read at a word is run.
ghost use Rattle.std.specs.Prelude.{◌<◌};
ghost use Rattle.v8.specs.Numbers.{most_words};
ghost use Rattle.step.specs.Step.{step_with};
ghost use Rattle.step.specs.Lent.{Does};

use crate::compute::{step_alu, step_sethi, step_shift};
use crate::loadstore::step_access;
use crate::moving::{branch, leave, stop};
use crate::{Control, Registers, Went};
use v8::numbers::NO_WORD;
use v8::{Instruction, Operation, Reading};

// Runs one step, x being what the word that control stands at is read as: 101 where it is not read, or
// is a transfer in a slot.
#[inline(always)]
pub fn one_step(control: Control, registers: &mut Registers, x: Reading, returns: u32) -> Went
    requires { control.at.0 < most_words }
    ensures { Does result registers.new control registers.old
        (λ l st. step_with l returns st x) }
{
    match x {
        Reading::Read(instruction) => match instruction {
            Instruction::Plain(operation) => match operation {
                Operation::Sethi { rd, imm22 } => step_sethi(control, registers, rd, imm22),
                Operation::Alu {
                    op,
                    cc,
                    rd,
                    rs1,
                    operand,
                } => step_alu(control, registers, op, cc, rd, rs1, operand),
                Operation::Shift { op, rd, rs1, count } => {
                    step_shift(control, registers, op, rd, rs1, count)
                }
                Operation::Memory {
                    access,
                    rd,
                    rs1,
                    displacement,
                } => step_access(control, registers, access, rd, rs1, displacement),
            },
            Instruction::Branch(b) => {
                if control.pending.is_some() {
                    return stop(control, NO_WORD);
                }
                branch(control, registers, b)
            }
            Instruction::Return => {
                if control.pending.is_some() {
                    return stop(control, NO_WORD);
                }
                leave(control, registers, returns)
            }
        },
        Reading::Unread(_) => stop(control, NO_WORD),
    }
}
