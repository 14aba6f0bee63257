// What an instruction does to the marks of the registers (specs/Effect.antt).
ghost use Rattle.std.specs.Prelude.{◌≡◌};
ghost use Rattle.marks.specs.Effect.{operand_mark, is_r0, of_numbers, sum_mark, difference_mark, or_mark, alu_mark, load_mark, access_mark, operation_mark, instruction_mark, marks_after, marks_after_word};

use crate::REGISTERS;
use crate::kinds::{ADDRESS, NUMBER, UNSET, mark_of, marks_with};
use flow_writes::register_written;
use v8::{Access, AluOp, Instruction, LoadOp, Operand, Operation, Reading};

// The mark of a second operand: a register's, or a number's.
fn operand_mark(marks: &[u8; REGISTERS], x: Operand) -> u8
    ensures { result ≡ operand_mark marks.now x }
{
    match x {
        Operand::Reg(r) => mark_of(marks, r),
        Operand::Imm(_) => NUMBER,
    }
}

// Whether a second operand is the register r0.
fn is_r0(x: Operand) -> bool
    ensures { result ≡ is_r0 x }
{
    matches!(x, Operand::Reg(0))
}

// The mark of what is made of numbers: a number, and unset of anything else.
#[tactic(auto, using(v8::proofs::Choice::tests), unfolding(crate::specs::Effect::of_numbers))]
fn of_numbers(a: u8, b: u8) -> u8
    ensures { result ≡ of_numbers a b }
{
    match (a, b) {
        (NUMBER, NUMBER) => NUMBER,
        _ => UNSET,
    }
}

// The mark of a sum.
#[tactic(auto, using(v8::proofs::Choice::tests), unfolding(crate::specs::Effect::sum_mark))]
fn sum_mark(a: u8, b: u8) -> u8
    ensures { result ≡ sum_mark a b }
{
    match (a, b) {
        (ADDRESS, NUMBER) | (NUMBER, ADDRESS) => ADDRESS,
        _ => of_numbers(a, b),
    }
}

// The mark of a difference.
#[tactic(auto, using(v8::proofs::Choice::tests), unfolding(crate::specs::Effect::difference_mark))]
fn difference_mark(a: u8, b: u8) -> u8
    ensures { result ≡ difference_mark a b }
{
    match (a, b) {
        (ADDRESS, NUMBER) => ADDRESS,
        _ => of_numbers(a, b),
    }
}

// The mark that OR gives: with the register r0 it copies.
#[tactic(auto, using(v8::proofs::Choice::tests), unfolding(crate::specs::Effect::or_mark))]
fn or_mark(marks: &[u8; REGISTERS], rs1: u8, x: Operand) -> u8
    ensures { result ≡ or_mark marks.now rs1 x }
{
    let second = operand_mark(marks, x);
    if rs1 == 0 {
        return second;
    }
    let first = mark_of(marks, rs1);
    if is_r0(x) {
        return first;
    }
    of_numbers(first, second)
}

// The mark that an arithmetic or logic instruction gives.
fn alu_mark(marks: &[u8; REGISTERS], op: AluOp, rs1: u8, x: Operand) -> u8
    ensures { result ≡ alu_mark marks.now op rs1 x }
{
    let first = mark_of(marks, rs1);
    let second = operand_mark(marks, x);
    match op {
        AluOp::Add => sum_mark(first, second),
        AluOp::Sub => difference_mark(first, second),
        AluOp::Or => or_mark(marks, rs1, x),
        AluOp::And | AluOp::Xor | AluOp::Andn | AluOp::Orn | AluOp::Xnor => {
            of_numbers(first, second)
        }
    }
}

// The mark that a load gives.
fn load_mark(op: LoadOp) -> u8
    ensures { result ≡ load_mark op }
{
    match op {
        LoadOp::Ld => UNSET,
        LoadOp::Ldub | LoadOp::Lduh | LoadOp::Ldsb | LoadOp::Ldsh => NUMBER,
    }
}

// The mark that an access gives; a store writes no register.
fn access_mark(a: Access) -> u8
    ensures { result ≡ access_mark a }
{
    match a {
        Access::Loads(op) => load_mark(op),
        Access::Stores(_) => UNSET,
    }
}

// The mark that an operation gives the register it writes.
fn operation_mark(marks: &[u8; REGISTERS], x: Operation) -> u8
    ensures { result ≡ operation_mark marks.now x }
{
    match x {
        Operation::Sethi { .. } => NUMBER,
        Operation::Alu {
            op,
            rs1,
            operand,
            ..
        } => alu_mark(marks, op, rs1, operand),
        Operation::Shift { rs1, count, .. } => {
            of_numbers(mark_of(marks, rs1), operand_mark(marks, count))
        }
        Operation::Memory { access, .. } => access_mark(access),
    }
}

// The mark that an instruction gives the register it writes; unset for one that writes none.
fn instruction_mark(marks: &[u8; REGISTERS], x: Instruction) -> u8
    ensures { result ≡ instruction_mark marks.now x }
{
    match x {
        Instruction::Plain(operation) => operation_mark(marks, operation),
        Instruction::Branch(_) | Instruction::Return => UNSET,
    }
}

// The marks after an instruction.
pub fn marks_after(marks: [u8; REGISTERS], x: Instruction) -> [u8; REGISTERS]
    ensures { result ≡ marks_after marks x }
{
    let mark = instruction_mark(&marks, x);
    marks_with(marks, register_written(x), mark)
}

// The marks after a word, as it is read.
pub fn marks_after_word(marks: [u8; REGISTERS], x: Reading) -> [u8; REGISTERS]
    ensures { result ≡ marks_after_word marks x }
{
    match x {
        Reading::Read(instruction) => marks_after(marks, instruction),
        Reading::Unread(_) => marks,
    }
}
