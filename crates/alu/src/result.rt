// The results of the arithmetic, logic and shift operations on 32-bit words.
// (V8, appendix B: "Add", "Subtract", "Logical", "Shift" and "SETHI".)
ghost use Rattle.std.specs.Prelude.{◌≡◌, ◌%◌};
ghost use Rattle.alu.specs.Result.{add32, sub32, sra32, alu_of, shift_of, sethi_of};

use v8::{AluOp, ShiftOp};

// The sum of two words, modulo 2^32: also of an address.
pub fn sum(x: u32, y: u32) -> u32
    ensures { result ≡ add32 x y }
{
    x.wrapping_add(y)
}

// What an arithmetic or logic operation gives of its two operands.
pub fn alu(op: AluOp, x: u32, y: u32) -> u32
    ensures { result ≡ alu_of op x y }
{
    match op {
        AluOp::Add => sum(x, y),
        AluOp::And => x & y,
        AluOp::Or => x | y,
        AluOp::Xor => x ^ y,
        AluOp::Sub => x.wrapping_sub(y),
        AluOp::Andn => x & !y,
        AluOp::Orn => x | !y,
        AluOp::Xnor => x ^ !y,
    }
}

// The word shifted right by `count` modulo 32, with copies of bit 31 shifted in.
fn shift_signed(x: u32, count: u32) -> u32
    ensures { result ≡ sra32 x (count % 32) }
{
    x.cast_signed().wrapping_shr(count).cast_unsigned()
}

// What a shift gives of a word and a count, of which the five low bits are used.
pub fn shift(op: ShiftOp, x: u32, count: u32) -> u32
    ensures { result ≡ shift_of op x count }
{
    match op {
        ShiftOp::Sll => x.wrapping_shl(count),
        ShiftOp::Srl => x.wrapping_shr(count),
        ShiftOp::Sra => shift_signed(x, count),
    }
}

// What SETHI gives of its number, of which the 22 low bits are used.
pub fn sethi(imm22: u32) -> u32
    ensures { result ≡ sethi_of imm22 }
{
    imm22 % 4194304 * 1024
}
