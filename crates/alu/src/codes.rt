// The integer condition codes. (V8, appendix C.)
ghost use Rattle.std.specs.Prelude.{◌≡◌};
ghost use Rattle.alu.specs.Result.{bit31, alu_of};
ghost use Rattle.alu.specs.Codes.{overflow_of, carry_of, codes_of};

use crate::result::alu;
use v8::AluOp;

// The integer condition codes: negative, zero, overflow, carry.
#[derive(Clone, Copy)]
pub struct Codes {
    pub n: bool,
    pub z: bool,
    pub v: bool,
    pub c: bool,
}

// Whether a word is negative as a signed number.
fn negative(x: u32) -> bool
    ensures { result ≡ bit31 x }
{
    x.cast_signed().is_negative()
}

// Whether the signed result leaves 32 bits, from bit 31 of the operands and of the result. A sum does
// where its sign is neither operand's; a difference, where the operands differ in sign and it has not
// the sign of the first.
fn overflow(op: AluOp, x: bool, y: bool, r: bool) -> bool
    ensures { result ≡ overflow_of op x y r }
{
    match op {
        AluOp::Add => x == y && r != x,
        AluOp::Sub => x != y && r != x,
        _ => false,
    }
}

// Whether a sum carries out of bit 31, or a difference borrows there.
fn carry(op: AluOp, x: u32, y: u32) -> bool
    ensures { result ≡ carry_of op (bit31 x) (bit31 y) (bit31 (alu_of op x y)) }
{
    match op {
        AluOp::Add => x.overflowing_add(y).1,
        AluOp::Sub => x < y,
        _ => false,
    }
}

// The codes that the code-setting form of an operation sets.
#[tactic(auto, unfolding(crate::specs::Codes::codes_of))]
pub fn codes_of(op: AluOp, x: u32, y: u32) -> Codes
    ensures { result ≡ codes_of op x y }
{
    let r = alu(op, x, y);
    let n = negative(r);
    let v = overflow(op, negative(x), negative(y), n);
    let c = carry(op, x, y);
    Codes { n, z: r == 0, v, c }
}
