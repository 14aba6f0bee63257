// Words as instructions.
ghost use Rattle.std.specs.Prelude.{◌≡◌, ◌<◌};
ghost use Rattle.v8.specs.Read.{read_number, reading_of, branch_of, predicted_of, format00, format10, format11, operand_of, count_of, displacement_of, alu_with, shift_with, memory_with, alu_op_of};

use crate::field::{
    annul_of, cc_of, cond_of, i_of, low19_of, low22_of, op2_of, op3_of, predict_of, rd_of, rs1_of,
    rs2_of, simm13_of, unused_of,
};
use crate::numbers::{NOT_READ, PRIVILEGED};
use crate::signed::sign_extend;
use crate::{
    Access, AluOp, Bicc, BranchForm, ByteOffset, Displacement, Edition, Instruction, LoadOp,
    Operand, Operation, Reading, ShiftOp, StoreOp, WordIndex,
};

// The leaf return, the one JMPL that is read.
pub const LEAF_RETURN: u32 = 0x81C3_E008;

// The second operand of arithmetic, logic, loads and stores; none where bits that must be zero are not.
#[tactic(auto, unfolding(crate::specs::Read::operand_of))]
fn operand_of(w: u32) -> Option<Operand>
    ensures { result ≡ operand_of w }
{
    if i_of(w) == 1 {
        return Some(Operand::Imm(sign_extend(13, simm13_of(w))));
    }
    if unused_of(w) == 0 {
        return Some(Operand::Reg(rs2_of(w)));
    }
    None
}

// The count of a shift; none where bits that must be zero are not.
#[tactic(auto, unfolding(crate::specs::Read::count_of))]
fn count_of(w: u32) -> Option<Operand>
    ensures { result ≡ count_of w }
{
    if unused_of(w) != 0 {
        return None;
    }
    let rs2 = rs2_of(w);
    Some(if i_of(w) == 1 {
        Operand::Imm(rs2 as u32)
    } else {
        Operand::Reg(rs2)
    })
}

// A branch of a form, by its distance.
fn branch_of(w: u32, form: BranchForm, distance: u32) -> Reading
    ensures { result ≡ branch_of w form distance }
{
    Reading::Read(Instruction::Branch(Bicc {
        annul: annul_of(w) == 1,
        cond: cond_of(w),
        distance: WordIndex(distance),
        form,
    }))
}

// The predicted branch, which only the newer terminal has; of the codes that it may test, only the
// 32-bit ones are read.
fn read_predicted(edition: Edition, w: u32) -> Reading
    ensures { result ≡ predicted_of edition w }
{
    match edition {
        Edition::V9 if cc_of(w) == 0 => {
            let form = BranchForm::Predicted(predict_of(w) == 1);
            branch_of(w, form, sign_extend(19, low19_of(w)))
        }
        _ => Reading::Unread(NOT_READ),
    }
}

// SETHI and branches.
#[tactic(auto, unfolding(crate::specs::Read::format00))]
fn read_format_00(edition: Edition, w: u32) -> Reading
    ensures { result ≡ format00 edition w }
{
    match op2_of(w) {
        4 => Reading::Read(Instruction::Plain(Operation::Sethi {
            rd: rd_of(w),
            imm22: low22_of(w),
        })),
        2 => branch_of(w, BranchForm::Unpredicted, sign_extend(22, low22_of(w))),
        1 => read_predicted(edition, w),
        _ => Reading::Unread(NOT_READ),
    }
}

// The operations of the opcodes 00 to 07.
const ALU_OPS: [AluOp; 8] = [
    AluOp::Add,
    AluOp::And,
    AluOp::Or,
    AluOp::Xor,
    AluOp::Sub,
    AluOp::Andn,
    AluOp::Orn,
    AluOp::Xnor,
];

fn alu_op(k: u32) -> AluOp
    requires { k < 8 }
    ensures { result ≡ alu_op_of k }
{
    ALU_OPS[k as usize]
}

fn read_alu(op: AluOp, cc: bool, w: u32) -> Reading
    ensures { result ≡ alu_with op cc w (operand_of w) }
{
    let Some(operand) = operand_of(w) else {
        return Reading::Unread(NOT_READ);
    };
    Reading::Read(Instruction::Plain(Operation::Alu {
        op,
        cc,
        rd: rd_of(w),
        rs1: rs1_of(w),
        operand,
    }))
}

fn read_shift(op: ShiftOp, w: u32) -> Reading
    ensures { result ≡ shift_with op w (count_of w) }
{
    let Some(count) = count_of(w) else {
        return Reading::Unread(NOT_READ);
    };
    Reading::Read(Instruction::Plain(Operation::Shift {
        op,
        rd: rd_of(w),
        rs1: rs1_of(w),
        count,
    }))
}

// Arithmetic, logic, shifts and the leaf return; privileged words by their opcode alone.
#[tactic(auto, unfolding(crate::specs::Read::format10))]
fn read_format_10(w: u32) -> Reading
    ensures { result ≡ format10 w }
{
    let op3 = op3_of(w);
    match op3 {
        0x00..=0x07 => read_alu(alu_op(op3), false, w),
        0x10..=0x17 => read_alu(alu_op(op3 - 0x10), true, w),
        0x25 => read_shift(ShiftOp::Sll, w),
        0x26 => read_shift(ShiftOp::Srl, w),
        0x27 => read_shift(ShiftOp::Sra, w),
        0x29..=0x2B | 0x31..=0x33 | 0x39 => Reading::Unread(PRIVILEGED),
        0x38 if w == LEAF_RETURN => Reading::Read(Instruction::Return),
        _ => Reading::Unread(NOT_READ),
    }
}

// An operand as the second part of an address.
impl From<Operand> for Displacement {
    ghost from_gives = { λ x d. d ≡ displacement_of x };

    fn from(x: Operand) -> Displacement {
        match x {
            Operand::Reg(r) => Displacement::Index(r),
            Operand::Imm(v) => Displacement::Bytes(ByteOffset(v)),
        }
    }
}

fn read_access(access: Access, w: u32) -> Reading
    ensures { result ≡ memory_with access w (operand_of w) }
{
    let Some(x) = operand_of(w) else {
        return Reading::Unread(NOT_READ);
    };
    Reading::Read(Instruction::Plain(Operation::Memory {
        access,
        rd: rd_of(w),
        rs1: rs1_of(w),
        displacement: x.into(),
    }))
}

// Loads and stores; privileged words by their opcode alone.
#[tactic(auto, unfolding(crate::specs::Read::format11))]
fn read_format_11(w: u32) -> Reading
    ensures { result ≡ format11 w }
{
    match op3_of(w) {
        0x00 => read_access(Access::Loads(LoadOp::Ld), w),
        0x01 => read_access(Access::Loads(LoadOp::Ldub), w),
        0x02 => read_access(Access::Loads(LoadOp::Lduh), w),
        0x04 => read_access(Access::Stores(StoreOp::St), w),
        0x05 => read_access(Access::Stores(StoreOp::Stb), w),
        0x06 => read_access(Access::Stores(StoreOp::Sth), w),
        0x09 => read_access(Access::Loads(LoadOp::Ldsb), w),
        0x0A => read_access(Access::Loads(LoadOp::Ldsh), w),
        0x10..=0x17 | 0x19..=0x1A | 0x1D | 0x1F | 0x26 | 0x36 => Reading::Unread(PRIVILEGED),
        _ => Reading::Unread(NOT_READ),
    }
}

// Reads a word, as a terminal of the edition does: an instruction of the subset, or the number of the
// refusal.
#[tactic(auto, unfolding(crate::specs::Read::reading_of))]
pub fn read_word(edition: Edition, w: u32) -> Reading
    ensures reading { result ≡ reading_of edition w }
    ensures number { read_number result ≡ read_number (reading_of edition w) }
{
    match w >> 30 {
        0 => read_format_00(edition, w),
        2 => read_format_10(w),
        3 => read_format_11(w),
        _ => Reading::Unread(NOT_READ),
    }
}
