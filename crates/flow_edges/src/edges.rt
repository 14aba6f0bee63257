// The edges of a word (specs/Edge.antt).
ghost use Rattle.std.specs.Prelude.{◌≡◌, ◌<◌};
ghost use Rattle.v8.specs.Numbers.{most_words};
ghost use Rattle.flow_edges.specs.Edge.{no_edge, onward, homeward, class_of, branch_edge, edge_of};

use crate::transfer::{has_edge, landing_of, slot_runs};
use crate::{Destination, Edge};
use alu::{Narrowing, condition_of, opposite};
use v8::{Bicc, Instruction, WordIndex};

// There is no such edge.
fn no_edge() -> Edge
    ensures { result ≡ no_edge }
{
    Edge {
        exists: false,
        slot: false,
        to: Destination::Caller,
        narrowing: Narrowing::Unrelated,
    }
}

// The edge to the next word.
fn onward(at: WordIndex) -> Edge
    requires { at.0 < most_words }
    ensures { result ≡ onward at.0 }
{
    Edge {
        exists: true,
        slot: false,
        to: Destination::To(WordIndex(at.0 + 1)),
        narrowing: Narrowing::Unrelated,
    }
}

// The edge of a return, over the slot to the caller.
fn homeward() -> Edge
    ensures { result ≡ homeward }
{
    Edge {
        exists: true,
        slot: true,
        to: Destination::Caller,
        narrowing: Narrowing::Unrelated,
    }
}

// The narrowing class of a branch's edge: that of its condition, or of the opposite one.
fn class_of(b: Bicc, taken: bool) -> Narrowing
    ensures { result ≡ class_of b taken }
{
    let met = if taken { b.cond } else { opposite(b.cond) };
    condition_of(met).narrowing
}

// The edge of a branch that is taken, or the other.
fn branch_edge(at: WordIndex, b: Bicc, taken: bool) -> Edge
    requires { at.0 < most_words }
    ensures { result ≡ branch_edge at.0 b taken }
{
    Edge {
        exists: has_edge(b.cond, taken),
        slot: slot_runs(b, taken),
        to: Destination::To(landing_of(at, b, taken)),
        narrowing: class_of(b, taken),
    }
}

// The edge of an instruction that is taken, or the other.
pub fn edge_of(at: WordIndex, x: Instruction, taken: bool) -> Edge
    requires { at.0 < most_words }
    ensures { result ≡ edge_of at.0 x taken }
{
    match x {
        Instruction::Plain(_) if !taken => onward(at),
        Instruction::Branch(b) => branch_edge(at, b, taken),
        Instruction::Return if taken => homeward(),
        _ => no_edge(),
    }
}
