// The operands of a word, and what it reaches or makes with them, as items.
use crate::entries::end_entry;
use crate::fields::show_region;
use crate::items::{done, signed, value};
use access::{addend_of, width_of};
use flow_edges::transfer::LINK;
use output::print;
use policy::Policy;
use rows::entries::{ADDRESS, NUMBER};
use rows::{Entry, Row, entry_at};
use rules::{Operands, is_sub, operands_of};
use sets::NumberSet;
use sets_rules::{add_sets, sub_sets};
use v8::{Access, AluOp, Instruction, Operation, Reading};

// Offsets of a region, which begin an item's values.
fn print_offsets(region: u8, s: NumberSet) {
    value(region as u64);
    value(s.step as u64);
    signed(s.lo);
    signed(s.hi);
}

// What an access reaches in a region, and the region.
fn show_reach(policy: &Policy, a: Access, region: u8, s: NumberSet) {
    print(b"reach");
    print_offsets(region, s);
    value(width_of(a) as u64);
    done();
    show_region(policy, region as usize);
}

// What an access reaches, where its operands are an address and a number.
fn show_access(policy: &Policy, a: Access, o: Operands) {
    let sum = add_sets(o.first.set, o.second.set);
    match (o.first.kind, o.second.kind) {
        (ADDRESS, NUMBER) => show_reach(policy, a, o.first.region, sum),
        (NUMBER, ADDRESS) => show_reach(policy, a, o.second.region, sum),
        _ => {}
    }
}

fn show_offsets(policy: &Policy, region: u8, s: NumberSet) {
    print(b"offsets");
    print_offsets(region, s);
    done();
    show_region(policy, region as usize);
}

// The offsets that a sum or a difference makes, where an operand is an address.
fn show_sum(policy: &Policy, op: AluOp, o: Operands) {
    let (x, y) = (o.first, o.second);
    match (x.kind, y.kind) {
        (ADDRESS, _) if is_sub(op) => show_offsets(policy, x.region, sub_sets(x.set, y.set)),
        (ADDRESS, _) => show_offsets(policy, x.region, add_sets(x.set, y.set)),
        (_, ADDRESS) if !is_sub(op) => show_offsets(policy, y.region, add_sets(x.set, y.set)),
        _ => {}
    }
}

// An operand: its register and its entry.
fn show_operand(name: &[u8], r: u8, e: Entry) {
    print(name);
    value(r as u64);
    end_entry(e);
}

fn show_operands(o: Operands) {
    show_operand(b"first", o.rs1, o.first);
    show_operand(b"second", o.rs2, o.second);
}

// The operands of an operation in a row, and what it reaches or makes with them.
fn show_operation_in(policy: &Policy, row: Row, x: Operation) {
    match x {
        Operation::Sethi { .. } => {}
        Operation::Alu {
            op,
            rs1,
            operand,
            ..
        } => {
            let o = operands_of(row, rs1, operand);
            show_operands(o);
            show_sum(policy, op, o);
        }
        Operation::Shift { rs1, count, .. } => {
            show_operands(operands_of(row, rs1, count));
        }
        Operation::Memory {
            access,
            rd,
            rs1,
            displacement,
        } => {
            let o = operands_of(row, rs1, addend_of(displacement));
            show_operands(o);
            show_operand(b"stored", rd, entry_at(row, rd));
            show_access(policy, access, o);
        }
    }
}

// The operands of an instruction in a row.
fn show_instruction_in(policy: &Policy, row: Row, x: Instruction) {
    match x {
        Instruction::Plain(operation) => show_operation_in(policy, row, operation),
        Instruction::Branch(_) => {}
        Instruction::Return => show_operand(b"first", LINK, entry_at(row, LINK)),
    }
}

// The operands of a word in a row.
pub fn show_word_in(policy: &Policy, row: Row, x: Reading) {
    if let Reading::Read(instruction) = x {
        show_instruction_in(policy, row, instruction);
    }
}
