// What each word does to a row, or the first condition that it breaks, with the register named
// (specs/Change.antt).
ghost use Rattle.std.specs.Prelude.{◌≡◌};
ghost use Rattle.rules.specs.Change.{writing, alu_change, shift_change, operation_change, branch_change, return_change, change_of};

use crate::accessing::access_change;
use crate::notes::{alu_note, note_after};
use crate::operand::operands_of;
use crate::results::{alu_result, shift_result};
use crate::{Change, Operands, Result};
use access::addend_of;
use alu::sethi;
use flow_edges::transfer::{LINK, reads_codes};
use flow_writes::operation_writes;
use policy::{Policy, Regions};
use rows::entries::{RETURN_ADDRESS, UNSET, constant};
use rows::geometry::NOTE_NAME;
use rows::notes::NOTE_UNSET;
use rows::{Entry, Note, Row, entry_at};
use v8::numbers::{NO_RULE, UNSET_OPERAND};
use v8::{AluOp, Instruction, Operation, ShiftOp};

// A write of a register with a result, if there is one.
fn writing(rd: u8, n: Note, rs1: u8, res: Result) -> Change
    ensures { result ≡ writing rd n rs1 res }
{
    match res {
        Result::Gives(e) => Change::Writes(rd, e, n),
        Result::Fails(number) => Change::Breaks(number, rs1),
    }
}

// Arithmetic and logic on a word's operands.
#[tactic(auto, unfolding(crate::specs::Change::alu_change))]
fn alu_change(regions: &Regions, n: Note, op: AluOp, cc: bool, rd: u8, o: Operands) -> Change
    ensures { result ≡ alu_change regions.now.sizes n op cc rd o }
{
    if o.first.kind == UNSET {
        return Change::Breaks(UNSET_OPERAND, o.rs1);
    }
    if o.second.kind == UNSET {
        return Change::Breaks(UNSET_OPERAND, o.rs2);
    }
    let note = alu_note(n, op, cc, rd, o.rs1, o.second);
    writing(rd, note, o.rs1, alu_result(regions, op, o.first, o.second))
}

// A shift of a word's first operand by the second.
#[tactic(auto, unfolding(crate::specs::Change::shift_change))]
fn shift_change(n: Note, op: ShiftOp, rd: u8, o: Operands) -> Change
    ensures { result ≡ shift_change n op rd o }
{
    if o.first.kind == UNSET {
        return Change::Breaks(UNSET_OPERAND, o.rs1);
    }
    if o.second.kind == UNSET {
        return Change::Breaks(UNSET_OPERAND, o.rs2);
    }
    let note = note_after(n, rd);
    writing(rd, note, o.rs1, shift_result(op, o.first, o.second))
}

// What an operation does to a row.
fn operation_change(policy: &Policy, row: Row, x: Operation) -> Change
    ensures { result ≡ operation_change policy.now row x }
{
    let to = operation_writes(x);
    match x {
        Operation::Sethi { imm22, .. } => {
            Change::Writes(to, constant(sethi(imm22)), note_after(row.note, to))
        }
        Operation::Alu {
            op,
            cc,
            rs1,
            operand,
            ..
        } => {
            let o = operands_of(row, rs1, operand);
            alu_change(&policy.regions, row.note, op, cc, to, o)
        }
        Operation::Shift { op, rs1, count, .. } => {
            shift_change(row.note, op, to, operands_of(row, rs1, count))
        }
        Operation::Memory {
            access,
            rd,
            rs1,
            displacement,
        } => {
            let o = operands_of(row, rs1, addend_of(displacement));
            access_change(policy, row, access, to, rd, o)
        }
    }
}

// A branch reads the codes, unless it branches always or never.
#[tactic(auto, unfolding(crate::specs::Change::branch_change))]
fn branch_change(n: Note, condition: u8) -> Change
    ensures { result ≡ branch_change n condition }
{
    if n.kind == NOTE_UNSET && reads_codes(condition) {
        return Change::Breaks(UNSET_OPERAND, NOTE_NAME);
    }
    Change::Keeps
}

// The leaf return, by the entry of r15.
#[tactic(auto, unfolding(crate::specs::Change::return_change))]
fn return_change(e: Entry) -> Change
    ensures { result ≡ return_change e }
{
    if e.kind == UNSET {
        return Change::Breaks(UNSET_OPERAND, LINK);
    }
    if e.kind == RETURN_ADDRESS {
        return Change::Keeps;
    }
    Change::Breaks(NO_RULE, LINK)
}

// What a word does to a row.
pub fn change_of(policy: &Policy, row: Row, x: Instruction) -> Change
    ensures { result ≡ change_of policy.now row x }
{
    match x {
        Instruction::Plain(operation) => operation_change(policy, row, operation),
        Instruction::Branch(b) => branch_change(row.note, b.cond),
        Instruction::Return => return_change(entry_at(row, LINK)),
    }
}
