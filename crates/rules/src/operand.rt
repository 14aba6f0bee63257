// The operands of a word: the registers that it names, and their entries (specs/Change.antt).
ghost use Rattle.std.specs.Prelude.{◌≡◌};
ghost use Rattle.rules.specs.Change.{operands_of};

use crate::Operands;
use rows::entries::constant;
use rows::{Row, entry_at};
use v8::Operand;

// The operands of a word in a row: an immediate is a single number, and names r0.
pub fn operands_of(row: Row, rs1: u8, operand: Operand) -> Operands
    ensures { result ≡ operands_of row rs1 operand }
{
    let first = entry_at(row, rs1);
    match operand {
        Operand::Reg(rs2) => Operands {
            rs1,
            first,
            rs2,
            second: entry_at(row, rs2),
        },
        Operand::Imm(word) => Operands {
            rs1,
            first,
            rs2: 0,
            second: constant(word),
        },
    }
}
