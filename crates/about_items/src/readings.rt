// How a word is read, as an item. An operation is shown as its number in the order of the crate v8.
use crate::items::{done, flag, signed, single, value};
use access::addend_of;
use output::print;
use v8::signed::excess;
use v8::{Access, BranchForm, Instruction, Operand, Operation, Reading};

// How a branch is predicted.
fn hint_number(form: BranchForm) -> u64 {
    match form {
        BranchForm::Unpredicted => 0,
        BranchForm::Predicted(taken) => 1 + u64::from(taken),
    }
}

// The name and the number of an access.
fn print_access(a: Access) {
    match a {
        Access::Loads(op) => {
            print(b"load");
            value(op as u64);
        }
        Access::Stores(op) => {
            print(b"store");
            value(op as u64);
        }
    }
}

// rd, rs1 and the second operand.
fn print_operands(rd: u8, rs1: u8, second: Operand) {
    value(rd as u64);
    value(rs1 as u64);
    match second {
        Operand::Reg(r) => {
            value(0);
            value(r as u64);
        }
        Operand::Imm(word) => {
            value(1);
            signed(excess(word));
        }
    }
}

fn show_operation(x: Operation) {
    match x {
        Operation::Sethi { rd, imm22 } => {
            print(b"sethi");
            value(rd as u64);
            value(imm22 as u64);
        }
        Operation::Alu {
            op,
            cc,
            rd,
            rs1,
            operand,
        } => {
            print(b"alu");
            value(op as u64);
            flag(cc);
            print_operands(rd, rs1, operand);
        }
        Operation::Shift { op, rd, rs1, count } => {
            print(b"shift");
            value(op as u64);
            print_operands(rd, rs1, count);
        }
        Operation::Memory {
            access,
            rd,
            rs1,
            displacement,
        } => {
            print_access(access);
            print_operands(rd, rs1, addend_of(displacement));
        }
    }
}

fn show_instruction(x: Instruction) {
    match x {
        Instruction::Plain(operation) => show_operation(operation),
        Instruction::Branch(b) => {
            print(b"branch");
            flag(b.annul);
            value(b.cond as u64);
            value(hint_number(b.form));
        }
        Instruction::Return => print(b"return"),
    }
    done();
}

// How a word is read.
pub fn show_reading(x: Reading) {
    match x {
        Reading::Read(instruction) => show_instruction(instruction),
        Reading::Unread(number) => single(b"unread", number as u64),
    }
}
