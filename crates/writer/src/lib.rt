// SPARC instructions of the subset written as 32-bit words. The laws that reading and writing undo each other
// stand in specs/Laws.antt. (Document 01, "Write an instruction".)
#![tactic(auto)]

ghost use Rattle.std.specs.Prelude.{◌≡◌, ◌+◌, ◌<◌, ◌≤◌, ◌^◌, Some};
ghost use Rattle.writer.specs.Write.{write_number, writing_of, signed_bits, five_bits, operand_bits, count_bits, displacement_bits, alu_code_cc, shift_code, load_code, store_code, access_code, packed, sethi_word, predicted_bits, branch_bits, branch_word, operation_word};

use v8::read::LEAF_RETURN;
use v8::signed::sign_extend;
use v8::{
    Access, AluOp, Bicc, BranchForm, Displacement, Edition, Instruction, LoadOp, Operand,
    Operation, ShiftOp, StoreOp,
};

// Where the fields of a word stand: what a field is multiplied by.
const OP_AT: u32 = 0x4000_0000;

const RD_AT: u32 = 0x0200_0000;

const OP3_AT: u32 = 0x0008_0000;

const RS1_AT: u32 = 0x4000;
// Bit 29 of a branch.
const ANNUL_BIT: u32 = 0x2000_0000;
// Bits 24:22 of a branch, 010, of one with prediction, 001, and of SETHI, 100.
const BICC_BITS: u32 = 0x0080_0000;

const BPCC_BITS: u32 = 0x0040_0000;

const SETHI_BITS: u32 = 0x0100_0000;
// Bit 19 of a predicted branch: it hints that the branch is taken.
const HINT_BIT: u32 = 0x0008_0000;
// Bit 13, i: a number stands in the place of rs2.
const I_BIT: u32 = 0x2000;

// A signed number in the low `bits` bits, above which stands i; none where it does not fit there.
#[tactic(auto, unfolding(crate::specs::Write::signed_bits))]
fn signed_bits(bits: u32, i: u32, v: u32) -> Option<u32>
    requires { (1 ≤ bits) × (bits ≤ 31) × (i < 2 ^ 31) }
    ensures { result ≡ signed_bits bits i v }
{
    let field = v % (1u32 << bits);
    if v == sign_extend(bits, field) {
        return Some(i + field);
    }
    None
}

// A number below 32 in the low five bits, above which stands i; none where it does not fit there.
#[tactic(auto, unfolding(crate::specs::Write::five_bits))]
fn five_bits(i: u32, v: u32) -> Option<u32>
    requires { i < 2 ^ 31 }
    ensures { result ≡ five_bits i v }
{
    if v < 32 {
        return Some(i + v);
    }
    None
}

// Bits 13:0 of the second operand.
fn operand_bits(x: Operand) -> Option<u32>
    ensures { result ≡ operand_bits x }
{
    match x {
        Operand::Reg(r) => five_bits(0, r as u32),
        Operand::Imm(v) => signed_bits(13, I_BIT, v),
    }
}

// Bits 13:0 of a shift's count.
fn count_bits(x: Operand) -> Option<u32>
    ensures { result ≡ count_bits x }
{
    match x {
        Operand::Reg(r) => five_bits(0, r as u32),
        Operand::Imm(v) => five_bits(I_BIT, v),
    }
}

// Bits 13:0 of an address's second part.
fn displacement_bits(x: Displacement) -> Option<u32>
    ensures { result ≡ displacement_bits x }
{
    match x {
        Displacement::Index(r) => operand_bits(Operand::Reg(r)),
        Displacement::Bytes(d) => operand_bits(Operand::Imm(d.0)),
    }
}

// The opcodes stand in the order of the operations.
fn alu_code_cc(op: AluOp, cc: bool) -> u32
    ensures { result ≡ alu_code_cc op cc }
{
    let code = op as u32;
    if cc { code + 0x10 } else { code }
}

fn shift_code(op: ShiftOp) -> u32
    ensures { result ≡ shift_code op }
{
    0x25 + op as u32
}

fn load_code(op: LoadOp) -> u32
    ensures { result ≡ load_code op }
{
    match op {
        LoadOp::Ld => 0x00,
        LoadOp::Ldub => 0x01,
        LoadOp::Lduh => 0x02,
        LoadOp::Ldsb => 0x09,
        LoadOp::Ldsh => 0x0A,
    }
}

fn store_code(op: StoreOp) -> u32
    ensures { result ≡ store_code op }
{
    match op {
        StoreOp::St => 0x04,
        StoreOp::Stb => 0x05,
        StoreOp::Sth => 0x06,
    }
}

fn access_code(access: Access) -> u32
    ensures { result ≡ access_code access }
{
    match access {
        Access::Loads(op) => load_code(op),
        Access::Stores(op) => store_code(op),
    }
}

// A word of format 10 or 11, from its fields.
#[tactic(auto, unfolding(crate::specs::Write::packed, crate::specs::Write::pack_of))]
fn pack(op: u32, rd: u8, op3: u32, rs1: u8, low: u32) -> Option<u32>
    requires { (op < 4) × (op3 < 64) × (low < 2 ^ 14) }
    ensures { result ≡ packed op rd op3 rs1 (Some low) }
{
    let d = rd as u32;
    let s = rs1 as u32;
    if d < 32 && s < 32 {
        return Some(op * OP_AT + d * RD_AT + op3 * OP3_AT + s * RS1_AT + low);
    }
    None
}

#[tactic(auto, unfolding(crate::specs::Write::sethi_word))]
fn write_sethi(rd: u8, imm22: u32) -> Option<u32>
    ensures { result ≡ sethi_word rd imm22 }
{
    let d = rd as u32;
    if d < 32 && imm22 < 0x40_0000 {
        return Some(d * RD_AT + SETHI_BITS + imm22);
    }
    None
}

// Bits 24:0 of a predicted branch, which has no word on the older terminal.
fn predicted_bits(edition: Edition, hint: bool, distance: u32) -> Option<u32>
    ensures { result ≡ predicted_bits edition hint distance }
{
    match edition {
        Edition::V8 => None,
        Edition::V9 if hint => signed_bits(19, BPCC_BITS + HINT_BIT, distance),
        Edition::V9 => signed_bits(19, BPCC_BITS, distance),
    }
}

// Bits 24:0 of a branch.
fn branch_bits(edition: Edition, form: BranchForm, distance: u32) -> Option<u32>
    ensures { result ≡ branch_bits edition form distance }
{
    match form {
        BranchForm::Unpredicted => signed_bits(22, BICC_BITS, distance),
        BranchForm::Predicted(hint) => predicted_bits(edition, hint, distance),
    }
}

fn write_branch(edition: Edition, x: Bicc) -> Option<u32>
    ensures { result ≡ branch_word x.annul x.cond (branch_bits edition x.form x.distance.0) }
{
    let b = branch_bits(edition, x.form, x.distance.0)?;
    let c = x.cond as u32;
    if c < 16 {
        let word = c * RD_AT + b;
        return Some(if x.annul { ANNUL_BIT + word } else { word });
    }
    None
}

// An instruction that is no transfer.
#[tactic(auto, unfolding(crate::specs::Write::packed))]
fn write_operation(x: Operation) -> Option<u32>
    ensures { result ≡ operation_word x }
{
    match x {
        Operation::Sethi { rd, imm22 } => write_sethi(rd, imm22),
        Operation::Alu {
            op,
            cc,
            rd,
            rs1,
            operand,
        } => pack(2, rd, alu_code_cc(op, cc), rs1, operand_bits(operand)?),
        Operation::Shift { op, rd, rs1, count } => {
            pack(2, rd, shift_code(op), rs1, count_bits(count)?)
        }
        Operation::Memory {
            access,
            rd,
            rs1,
            displacement,
        } => pack(
            3,
            rd,
            access_code(access),
            rs1,
            displacement_bits(displacement)?,
        ),
    }
}

// Writes an instruction, as a terminal of the edition does: a word, or none, which is refusal 17, where a
// part is out of range or the edition has no such word.
#[tactic(auto, unfolding(crate::specs::Write::writing_of))]
pub fn write_instruction(edition: Edition, x: Instruction) -> Option<u32>
    ensures writing { result ≡ writing_of edition x }
    ensures number { write_number result ≡ write_number (writing_of edition x) }
{
    match x {
        Instruction::Plain(op) => write_operation(op),
        Instruction::Branch(b) => write_branch(edition, b),
        Instruction::Return => Some(LEAF_RETURN),
    }
}
