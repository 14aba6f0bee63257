// SPARC words: the instructions of our subset, V8's and (request 5) V9's predicted branch, and words
// read as such. The lowest crate: everything above it speaks of these types and rests on the
// definitions in specs/, never on the code here. (Document 01, "Words we read".)
#![tactic(auto)]

// The numbers of document 01.
pub mod numbers;
// Signed numbers in words.
pub mod signed;
// The bit fields of a word.
mod field;
// Words as instructions.
pub mod read;

pub use read::read_word;

// Which edition of the SPARC Architecture Manual a terminal's processor follows: Version 8, or (request 5)
// Version 9, run with 32-bit address masking.
#[derive(Clone, Copy)]
pub enum Edition {
    V8,
    V9,
}

// A count of words: a word's index in the code, or a branch's signed distance (sign-extended).
#[derive(Clone, Copy)]
pub struct WordIndex(pub u32);

// A count of bytes: an offset in memory, or a signed distance there (sign-extended).
#[derive(Clone, Copy)]
pub struct ByteOffset(pub u32);

// Arithmetic and logic, in the order of the opcodes 00 to 07.
#[derive(Clone, Copy)]
pub enum AluOp {
    Add,
    And,
    Or,
    Xor,
    Sub,
    Andn,
    Orn,
    Xnor,
}

// Shifts, in the order of the opcodes 25 to 27.
#[derive(Clone, Copy)]
pub enum ShiftOp {
    Sll,
    Srl,
    Sra,
}

// Loads: a word, an unsigned byte or half, a signed byte or half.
#[derive(Clone, Copy)]
pub enum LoadOp {
    Ld,
    Ldub,
    Lduh,
    Ldsb,
    Ldsh,
}

// Stores: a word, a byte, a half.
#[derive(Clone, Copy)]
pub enum StoreOp {
    St,
    Stb,
    Sth,
}

// The second operand: register rs2, or a signed 13-bit number, sign-extended to 32 bits.
// As a shift's count: register rs2, or a number from 0 to 31.
#[derive(Clone, Copy)]
pub enum Operand {
    Reg(u8),
    Imm(u32),
}

// The second part of an address, added to rs1: register rs2, or a signed 13-bit count of bytes.
#[derive(Clone, Copy)]
pub enum Displacement {
    Index(u8),
    Bytes(ByteOffset),
}

// An access to memory: a load or a store.
#[derive(Clone, Copy)]
pub enum Access {
    Loads(LoadOp),
    Stores(StoreOp),
}

// The instructions that are no transfer: the word after them is the next.
#[derive(Clone, Copy)]
pub enum Operation {
    // rd becomes imm22 times 1024.
    Sethi {
        rd: u8,
        imm22: u32,
    },
    // Arithmetic and logic, plain or setting the condition codes.
    Alu {
        op: AluOp,
        cc: bool,
        rd: u8,
        rs1: u8,
        operand: Operand,
    },
    Shift {
        op: ShiftOp,
        rd: u8,
        rs1: u8,
        count: Operand,
    },
    // A load to rd, or a store of it, at rs1 plus a displacement.
    Memory {
        access: Access,
        rd: u8,
        rs1: u8,
        displacement: Displacement,
    },
}

// How a branch is written: without prediction, or (request 5) with it, hinting whether it will be taken.
#[derive(Clone, Copy)]
pub enum BranchForm {
    Unpredicted,
    Predicted(bool),
}

// A branch on the condition codes, by its distance in words where the condition holds. Only reading and
// writing look at its form.
#[derive(Clone, Copy)]
pub struct Bicc {
    pub annul: bool,
    pub cond: u8,
    pub distance: WordIndex,
    pub form: BranchForm,
}

// The instructions of the subset, by how control goes on from them: to the next word; over the slot,
// taken or not; over the slot to the caller.
#[derive(Clone, Copy)]
pub enum Instruction {
    Plain(Operation),
    Branch(Bicc),
    // The leaf return, JMPL to r15 + 8.
    Return,
}

// What a word is read as: an instruction, or the number of the refusal.
#[derive(Clone, Copy)]
pub enum Reading {
    Read(Instruction),
    Unread(u8),
}
