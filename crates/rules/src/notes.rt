// The notes that words leave (specs/Change.antt).
ghost use Rattle.std.specs.Prelude.{◌≡◌, cond};
ghost use Rattle.rules.specs.Change.{note_after, codes_note};

use crate::results::is_sub;
use rows::entries::is_constant;
use rows::notes::{NOTE_COMPARISON, codes_set, comparison};
use rows::{Entry, Note};
use v8::AluOp;

// The note after rd was written: of a comparison of rd it is left that the codes are set.
#[tactic(auto, unfolding(crate::specs::Change::note_after))]
pub fn note_after(n: Note, rd: u8) -> Note
    ensures { result ≡ note_after n rd }
{
    if n.kind == NOTE_COMPARISON && n.register == rd {
        return codes_set();
    }
    n
}

// The note that a code-setting word leaves: a comparison, if the word is SUBcc of r1 to r31 by a
// single number and does not write that register.
#[tactic(auto, unfolding(crate::specs::Change::codes_note))]
fn codes_note(op: AluOp, rd: u8, rs1: u8, b: Entry) -> Note
    ensures { result ≡ codes_note op rd rs1 b }
{
    if is_sub(op) && 1 <= rs1 && is_constant(b) && rd != rs1 {
        return comparison(rs1, b.set.lo);
    }
    codes_set()
}

// The note that arithmetic and logic leave, code-setting or not.
pub fn alu_note(n: Note, op: AluOp, cc: bool, rd: u8, rs1: u8, b: Entry) -> Note
    ensures { result ≡ cond cc (codes_note op rd rs1 b) (note_after n rd) }
{
    if cc {
        return codes_note(op, rd, rs1, b);
    }
    note_after(n, rd)
}
