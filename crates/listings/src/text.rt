// Instructions in the assembler's syntax.
use std::fmt::{self, Write};
use v8::{
    Access, AluOp, Bicc, BranchForm, Displacement, Instruction, LoadOp, Operand, Operation,
    ShiftOp, StoreOp,
};

// What the assembler writes for a part of an instruction.
#[derive(Drop)]
struct Asm<T>(T);

// A register, as `%o0`.
#[derive(Clone, Copy)]
struct Register(u8);

impl fmt::Display for Register {
    fn fmt<W: fmt::Write>(&self, f: &mut fmt::Formatter<W>) -> fmt::Result {
        let bank = match self.0 / 8 {
            0 => 'g',
            1 => 'o',
            2 => 'l',
            3 => 'i',
            _ => return write!(f, "?"),
        };
        write!(f, "%{bank}{}", self.0 % 8)
    }
}

impl fmt::Display for Asm<Operand> {
    fn fmt<W: fmt::Write>(&self, f: &mut fmt::Formatter<W>) -> fmt::Result {
        match self.0 {
            Operand::Reg(r) => write!(f, "{}", Register(r)),
            Operand::Imm(v) => write!(f, "{}", v.cast_signed()),
        }
    }
}

// A displacement with its sign, as `+%g1` or `-4`.
impl fmt::Display for Asm<Displacement> {
    fn fmt<W: fmt::Write>(&self, f: &mut fmt::Formatter<W>) -> fmt::Result {
        match self.0 {
            Displacement::Index(r) => write!(f, "+{}", Register(r)),
            Displacement::Bytes(d) => write!(f, "{:+}", d.0.cast_signed()),
        }
    }
}

impl fmt::Display for Asm<AluOp> {
    fn fmt<W: fmt::Write>(&self, f: &mut fmt::Formatter<W>) -> fmt::Result {
        f.write_str(match self.0 {
            AluOp::Add => "add",
            AluOp::And => "and",
            AluOp::Or => "or",
            AluOp::Xor => "xor",
            AluOp::Sub => "sub",
            AluOp::Andn => "andn",
            AluOp::Orn => "orn",
            AluOp::Xnor => "xnor",
        })
    }
}

impl fmt::Display for Asm<ShiftOp> {
    fn fmt<W: fmt::Write>(&self, f: &mut fmt::Formatter<W>) -> fmt::Result {
        f.write_str(match self.0 {
            ShiftOp::Sll => "sll",
            ShiftOp::Srl => "srl",
            ShiftOp::Sra => "sra",
        })
    }
}

impl fmt::Display for Asm<LoadOp> {
    fn fmt<W: fmt::Write>(&self, f: &mut fmt::Formatter<W>) -> fmt::Result {
        f.write_str(match self.0 {
            LoadOp::Ld => "ld",
            LoadOp::Ldub => "ldub",
            LoadOp::Lduh => "lduh",
            LoadOp::Ldsb => "ldsb",
            LoadOp::Ldsh => "ldsh",
        })
    }
}

impl fmt::Display for Asm<StoreOp> {
    fn fmt<W: fmt::Write>(&self, f: &mut fmt::Formatter<W>) -> fmt::Result {
        f.write_str(match self.0 {
            StoreOp::St => "st",
            StoreOp::Stb => "stb",
            StoreOp::Sth => "sth",
        })
    }
}

impl fmt::Display for Asm<Operation> {
    fn fmt<W: fmt::Write>(&self, f: &mut fmt::Formatter<W>) -> fmt::Result {
        match self.0 {
            Operation::Sethi { rd, imm22 } => write!(f, "sethi {imm22},{}", Register(rd)),
            Operation::Alu {
                op,
                cc,
                rd,
                rs1,
                operand,
            } => {
                let codes = if cc { "cc" } else { "" };
                let (rs1, rd) = (Register(rs1), Register(rd));
                write!(f, "{}{codes} {rs1},{},{rd}", Asm(op), Asm(operand))
            }
            Operation::Shift { op, rd, rs1, count } => {
                let (rs1, rd) = (Register(rs1), Register(rd));
                write!(f, "{} {rs1},{},{rd}", Asm(op), Asm(count))
            }
            Operation::Memory {
                access,
                rd,
                rs1,
                displacement,
            } => {
                let (rs1, rd, displacement) = (Register(rs1), Register(rd), Asm(displacement));
                match access {
                    Access::Loads(op) => write!(f, "{} [{rs1}{displacement}],{rd}", Asm(op)),
                    Access::Stores(op) => write!(f, "{} {rd},[{rs1}{displacement}]", Asm(op)),
                }
            }
        }
    }
}

// The name of a branch on a condition.
fn branch_name(cond: u8) -> &'static str {
    match cond {
        0 => "bn",
        1 => "be",
        2 => "ble",
        3 => "bl",
        4 => "bleu",
        5 => "bcs",
        6 => "bneg",
        7 => "bvs",
        8 => "ba",
        9 => "bne",
        10 => "bg",
        11 => "bge",
        12 => "bgu",
        13 => "bcc",
        14 => "bpos",
        15 => "bvc",
        _ => "?",
    }
}

// A branch, whose distance is in bytes from the branch itself, as `bne,a .+16` or `be,pn %icc,.-8`.
impl fmt::Display for Asm<Bicc> {
    fn fmt<W: fmt::Write>(&self, f: &mut fmt::Formatter<W>) -> fmt::Result {
        let name = branch_name(self.0.cond);
        let annul = if self.0.annul { ",a" } else { "" };
        let form = match self.0.form {
            BranchForm::Unpredicted => " ",
            BranchForm::Predicted(true) => ",pt %icc,",
            BranchForm::Predicted(false) => ",pn %icc,",
        };
        let distance = 4 * i64::from(self.0.distance.0.cast_signed());
        write!(f, "{name}{annul}{form}.{distance:+}")
    }
}

impl fmt::Display for Asm<Instruction> {
    fn fmt<W: fmt::Write>(&self, f: &mut fmt::Formatter<W>) -> fmt::Result {
        match self.0 {
            Instruction::Plain(op) => write!(f, "{}", Asm(op)),
            Instruction::Branch(b) => write!(f, "{}", Asm(b)),
            Instruction::Return => write!(f, "retl"),
        }
    }
}

// What is left of a text from which what is written is taken off. Other bytes are refused.
#[derive(Drop)]
struct Rest<'a>(&'a [u8]);

impl fmt::Write for Rest<'_> {
    fn write_str(&mut self, s: &str) -> fmt::Result {
        self.0 = self.0.strip_prefix(s.as_bytes()).ok_or(fmt::Error)?;
        Ok(())
    }
}

// Whether a text is an instruction's.
pub fn is_text_of(x: Instruction, text: &[u8]) -> bool {
    let mut rest = Rest(text);
    write!(rest, "{}", Asm(x)).is_ok() && rest.0.is_empty()
}
