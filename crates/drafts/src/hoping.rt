// A row after a word. Where the word is refused, the row is a hopeful one, so that later words have rows
// too: the check will name the word.
use access::{addend_of, serves_element};
use alu::Narrowing;
use checker::change_by;
use joins::unset;
use policy::{Policy, Regions};
use policy_search::find_in;
use rows::entries::{ADDRESS, NUMBER, START_OR_NULL, address_in, number_in, size_in};
use rows::notes::{NOTE_COMPARISON, codes_set};
use rows::{Entry, Note, Row, field_entry, row_with};
use rules::{Change, Operands, is_sub, operands_of};
use sets::{NumberSet, ended, full};
use sets_narrow::narrow_set;
use sets_rules::{add_sets, sub_sets};
use v8::numbers::OUTSIDE_REGION;
use v8::signed::BIAS;
use v8::{Access, AluOp, ByteOffset, Instruction, LoadOp, Operation, Reading};

// The numbers that a load gives, whatever it reads.
fn loadable(op: LoadOp) -> NumberSet {
    match op {
        LoadOp::Ld => full(),
        LoadOp::Ldub => ended(1, BIAS, BIAS + 255),
        LoadOp::Lduh => ended(1, BIAS, BIAS + 65535),
        LoadOp::Ldsb => ended(1, BIAS - 128, BIAS + 127),
        LoadOp::Ldsh => ended(1, BIAS - 32768, BIAS + 32767),
    }
}

// What a load of the byte at an offset of a region gives, if it serves the field there.
fn load_at(policy: &Policy, op: LoadOp, region: u8, offset: u32) -> Option<Entry> {
    let low = offset.checked_sub(BIAS)?;
    let place = find_in(policy, region, ByteOffset(low), ByteOffset(low + 1)).found?;
    let field = policy.fields[place];
    if serves_element(Access::Loads(op), field.element) {
        return Some(field_entry(field));
    }
    None
}

// Whether an entry is an address of a region, or its start or null.
fn points(e: Entry) -> bool {
    matches!(e.kind, ADDRESS | START_OR_NULL)
}

// What a load that is refused may give: what the field at the lowest offset holds, else all that it can.
fn load_hope(policy: &Policy, op: LoadOp, o: Operands) -> Entry {
    let a = o.first;
    let b = o.second;
    let any = number_in(loadable(op));
    let region = if points(a) && b.kind == NUMBER {
        a.region
    } else if a.kind == NUMBER && points(b) {
        b.region
    } else {
        return any;
    };
    load_at(policy, op, region, add_sets(a.set, b.set).lo).unwrap_or(any)
}

// The numbers of a set from one on up to another, if there are any.
fn between(s: NumberSet, least: u32, most: u32) -> Option<NumberSet> {
    let above = narrow_set(Narrowing::AtLeast, s, least)?;
    narrow_set(Narrowing::AtMost, above, most)
}

// The offsets of a set that stay in a region.
fn cut(regions: &Regions, region: u8, s: NumberSet) -> Entry {
    match between(s, BIAS, BIAS + size_in(regions, region)) {
        Some(within) => address_in(region, within),
        None => unset(),
    }
}

// An address plus or minus a number where offsets leave the region: those that stay.
fn cut_sum(regions: &Regions, op: AluOp, o: Operands) -> Entry {
    let a = o.first;
    let b = o.second;
    if is_sub(op) {
        return cut(regions, a.region, sub_sets(a.set, b.set));
    }
    let region = if a.kind == ADDRESS {
        a.region
    } else {
        b.region
    };
    cut(regions, region, add_sets(a.set, b.set))
}

// The note after rd was written: of a comparison of rd it is left that the codes are set.
fn note_left(n: Note, rd: u8) -> Note {
    if n.kind == NOTE_COMPARISON && n.register == rd {
        return codes_set();
    }
    n
}

// What is left of a row after arithmetic or logic that was refused with a number.
fn alu_hope(
    policy: &Policy,
    row: Row,
    op: AluOp,
    cc: bool,
    rd: u8,
    o: Operands,
    number: u8,
) -> Row {
    let e = if number == OUTSIDE_REGION {
        cut_sum(&policy.regions, op, o)
    } else {
        unset()
    };
    let n = if cc {
        codes_set()
    } else {
        note_left(row.note, rd)
    };
    row_with(row, rd, e, n)
}

// A hopeful row after an operation that was refused with a number.
fn hopeful(policy: &Policy, row: Row, x: Operation, number: u8) -> Row {
    match x {
        Operation::Alu {
            op,
            cc,
            rd,
            rs1,
            operand,
        } => {
            let o = operands_of(row, rs1, operand);
            alu_hope(policy, row, op, cc, rd, o, number)
        }
        Operation::Shift { rd, .. } => row_with(row, rd, unset(), note_left(row.note, rd)),
        Operation::Memory {
            access: Access::Loads(op),
            rd,
            rs1,
            displacement,
        } => {
            let o = operands_of(row, rs1, addend_of(displacement));
            row_with(row, rd, load_hope(policy, op, o), note_left(row.note, rd))
        }
        _ => row,
    }
}

// The row after a word, read as x; a hopeful one where the word is refused.
pub fn row_after(policy: &Policy, row: Row, x: Reading) -> Row {
    match change_by(policy, row, x) {
        Change::Writes(register, entry, note) => row_with(row, register, entry, note),
        Change::Keeps => row,
        Change::Breaks(number, _) => match x {
            Reading::Read(Instruction::Plain(operation)) => hopeful(policy, row, operation, number),
            _ => row,
        },
    }
}
