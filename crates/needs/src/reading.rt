// What a word and those after it read: a set of bits, one for each entry of a row by its index, and one
// for the codes.
ghost use Rattle.std.specs.Prelude.{◌<◌};
ghost use Rattle.v8.specs.Numbers.{most_words};

use access::addend_of;
use drafts::{RESULT, Routine, narrowed};
use flow_edges::edges::edge_of;
use flow_edges::transfer::{LINK, reads_codes};
use flow_edges::{Destination, Edge};
use flow_writes::operation_writes;
use memory::frame::{is_scratch, scratch_at};
use rows::entries::{FRAME_ADDRESS, UNSET, is_constant};
use rows::geometry::{ENTRIES, scratch_entry};
use rows::notes::{NOTE_COMPARISON, NOTE_UNSET};
use rows::{Entry, Note, Row};
use rules::{Operands, operands_of};
use v8::numbers::MOST_WORDS;
use v8::signed::excess;
use v8::{Access, ByteOffset, Instruction, Operand, Operation, Reading, WordIndex};

// The bit of the codes, after those of the entries.
pub const CODES: u8 = 38;

// How many passes there are at most.
const PASSES: u32 = 66;

// The bit of an index; there is none above 63.
fn bit(i: u8) -> u64 {
    if 63 < i {
        return 0;
    }
    1u64 << i
}

// Whether a bit is set.
pub fn has(bits: u64, i: u8) -> bool {
    bits & bit(i) != 0
}

// The bit of an operand that is a register.
fn operand_bit(o: Operand) -> u64 {
    match o {
        Operand::Reg(r) => bit(r),
        Operand::Imm(_) => 0,
    }
}

// The bit of the scratch word at an offset of the frame; none where there is no scratch word.
fn scratch_bit(offset: u32) -> u64 {
    let at = ByteOffset(offset);
    if !is_scratch(at) {
        return 0;
    }
    bit(scratch_entry(scratch_at(at)))
}

// The bit of the scratch word that an access to the sum of its operands is of; none where it is of none.
fn reached_bit(o: Operands) -> u64 {
    let a = o.first;
    let b = o.second;
    if a.kind == FRAME_ADDRESS && is_constant(b) {
        return scratch_bit(excess(b.set.lo));
    }
    if is_constant(a) && b.kind == FRAME_ADDRESS {
        return scratch_bit(excess(a.set.lo));
    }
    0
}

// What an access reads, before which `after` is read: its registers, and a scratch word that it loads.
fn before_access(a: Access, rd: u8, reached: u64, after: u64) -> u64 {
    match a {
        Access::Loads(_) => after & !bit(rd) | reached,
        Access::Stores(_) => after & !reached | bit(rd),
    }
}

// What is read from an operation on, after which `after` is read, in this row.
fn before_operation(row: Row, x: Operation, after: u64) -> u64 {
    let left = after & !bit(operation_writes(x));
    match x {
        Operation::Sethi { .. } => left,
        Operation::Alu {
            cc,
            rs1,
            operand,
            ..
        } => {
            let set = if cc { bit(CODES) } else { 0 };
            left & !set | bit(rs1) | operand_bit(operand)
        }
        Operation::Shift { rs1, count, .. } => left | bit(rs1) | operand_bit(count),
        Operation::Memory {
            access,
            rd,
            rs1,
            displacement,
        } => {
            let second = addend_of(displacement);
            let reached = reached_bit(operands_of(row, rs1, second));
            before_access(access, rd, reached, after) | bit(rs1) | operand_bit(second)
        }
    }
}

// What a branch reads, with this note: the codes, and the register that they compare.
fn branch_reads(note: Note, condition: u8) -> u64 {
    if !reads_codes(condition) {
        return 0;
    }
    if note.kind == NOTE_COMPARISON {
        return bit(CODES) | bit(note.register);
    }
    bit(CODES)
}

// What is read from a word on, read as x, after which `after` is read, in this row.
fn before_word(row: Row, x: Reading, after: u64) -> u64 {
    match x {
        Reading::Read(Instruction::Plain(operation)) => before_operation(row, operation, after),
        Reading::Read(Instruction::Branch(b)) => after | branch_reads(row.note, b.cond),
        Reading::Read(Instruction::Return) => after | bit(LINK),
        Reading::Unread(_) => after,
    }
}

// What is read where an edge ends: at the caller, what the result entry asks for.
fn needed_at(routine: &Routine, need: &[u64; MOST_WORDS], to: Destination) -> u64 {
    match to {
        Destination::To(d) => need.get(d.0 as usize).copied().unwrap_or(0),
        Destination::Caller => asked_bit(RESULT, routine.res),
    }
}

// What is read along an edge of a word, over its slot, read as x.
fn needed_along(routine: &Routine, need: &[u64; MOST_WORDS], row: Row, x: Reading, e: Edge) -> u64 {
    if !e.exists {
        return 0;
    }
    let Some(left) = narrowed(row, e) else {
        return 0;
    };
    let after = needed_at(routine, need, e.to);
    if e.slot {
        return before_word(left, x, after);
    }
    after
}

// What is read from word w on, whose row this is.
fn needed_from(routine: &Routine, need: &[u64; MOST_WORDS], row: Row, w: usize) -> u64
    requires { w < most_words }
{
    let x = routine.readings[w];
    let Reading::Read(instruction) = x else {
        return 0;
    };
    let slot = routine.slot_of(w);
    let mut after = 0;
    for taken in [true, false] {
        let e = edge_of(WordIndex(w as u32), instruction, taken);
        after |= needed_along(routine, need, row, slot, e);
    }
    before_word(row, x, after)
}

// The bit of an entry that says something.
fn asked_bit(i: u8, e: Entry) -> u64 {
    if e.kind == UNSET { 0 } else { bit(i) }
}

// What a row that is given asks for: all that it says something of.
fn asked_by(row: &Row) -> u64 {
    let mut bits = if row.note.kind == NOTE_UNSET {
        0
    } else {
        bit(CODES)
    };
    for i in 1..ENTRIES {
        bits |= asked_bit(i as u8, row.entries[i]);
    }
    bits
}

// One pass over the words, from the last to the first; whether anything has changed.
fn need_once(routine: &Routine, rows: &[Row; MOST_WORDS], need: &mut [u64; MOST_WORDS]) -> bool {
    let mut changed = false;
    for w in (0..routine.count).rev() {
        if routine.examined[w] {
            let before = if routine.given[w] {
                asked_by(&rows[w])
            } else {
                needed_from(routine, need, rows[w], w)
            };
            changed |= before != need[w];
            need[w] = before;
        }
    }
    changed
}

// What is read from each word on, by passes until nothing changes.
pub fn find_needs(routine: &Routine, rows: &[Row; MOST_WORDS]) -> [u64; MOST_WORDS] {
    let mut need = [0; MOST_WORDS];
    for _ in 0..PASSES {
        if !need_once(routine, rows, &mut need) {
            break;
        }
    }
    need
}
