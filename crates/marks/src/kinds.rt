// Marks of registers (specs/Marks.antt).
ghost use Rattle.std.specs.Prelude.{◌≡◌};
ghost use Rattle.marks.specs.Marks.{mark_of_kind, meet, mark_of, marks_with};

use crate::REGISTERS;

// These are numbers and no enum: the listing writes them as bytes into a table that the caller lends.
// The word is not reached.
pub const NOT_REACHED: u8 = 0;
// A number.
pub const NUMBER: u8 = 1;
// An address.
pub const ADDRESS: u8 = 2;
// Unset: nothing is known of the register.
pub const UNSET: u8 = 5;

// The mark of an entry's kind. Kind 5, the frame address, has the number of the mark that it gets: unset.
pub fn mark_of_kind(kind: u8) -> u8
    ensures { result ≡ mark_of_kind kind }
{
    match kind {
        0 => UNSET,
        _ => kind,
    }
}

// Two marks meet: different ones give unset, and not reached gives way.
#[tactic(auto, using(v8::proofs::Choice::tests), unfolding(crate::specs::Marks::meet))]
pub fn meet(a: u8, b: u8) -> u8
    ensures { result ≡ meet a b }
{
    match (a, b) {
        (NOT_REACHED, _) => b,
        (_, NOT_REACHED) => a,
        _ if a == b => a,
        _ => UNSET,
    }
}

// The mark of register r; there is none after the last.
#[tactic(auto, using(v8::proofs::Choice::tests), unfolding(crate::specs::Marks::mark_of))]
pub fn mark_of(marks: &[u8; REGISTERS], r: u8) -> u8
    ensures { result ≡ mark_of marks.now r }
{
    marks.get(r as usize).copied().unwrap_or(UNSET)
}

// The marks after register r is given one; r0 keeps its own.
#[tactic(auto, using(v8::proofs::Choice::tests), unfolding(crate::specs::Marks::marks_with))]
pub fn marks_with(mut marks: [u8; REGISTERS], r: u8, mark: u8) -> [u8; REGISTERS]
    ensures { result ≡ marks_with marks r mark }
{
    let i = r as usize;
    if 0 < i && i < REGISTERS {
        marks[i] = mark;
    }
    marks
}
