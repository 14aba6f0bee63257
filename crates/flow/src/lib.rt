// Where control may go from a word, and what follows for a routine all of whose words pass: an edge of a
// word that is examined leads to another. (Document 01, "3 flow"; specs/Flow.antt, specs/Laws.antt.)
#![tactic(auto)]

ghost use Rattle.std.specs.Prelude.{◌≡◌, ◌<◌, ltb};
ghost use Rattle.v8.specs.Numbers.{most_words};
ghost use Rattle.flow.specs.Flow.{edge_flow, edges_flow, flow_with};

use flow_edges::edges::edge_of;
use flow_edges::transfer::is_transfer;
use flow_edges::{Destination, Edge};
use v8::{Instruction, Reading, WordIndex};

// Whether a word is one of the code.
fn inside(count: usize, at: WordIndex) -> bool
    ensures { result ≡ ltb at.0 count }
{
    (at.0 as usize) < count
}

// Whether an edge, if there is one, ends in the code or at the caller.
fn edge_flow(count: usize, e: Edge) -> bool
    ensures { result ≡ edge_flow count e }
{
    match e.to {
        Destination::To(at) if e.exists => inside(count, at),
        _ => true,
    }
}

// Whether both edges of an instruction do.
fn edges_flow(count: usize, at: WordIndex, x: Instruction) -> bool
    requires { at.0 < most_words }
    ensures { result ≡ edges_flow count at.0 x }
{
    edge_flow(count, edge_of(at, x, true)) && edge_flow(count, edge_of(at, x, false))
}

// The flow of a word, in a slot or not, examined as an ordinary word or not, read as x: the slot of a
// transfer is of the code, and it is in no slot itself; the edges of a word that is examined end where
// they may.
pub fn flows(count: usize, at: WordIndex, in_slot: bool, ordinary: bool, x: Reading) -> bool
    requires { at.0 < most_words }
    ensures { result ≡ flow_with count in_slot ordinary at.0 x }
{
    let Reading::Read(instruction) = x else {
        return true;
    };
    let slot = inside(count, WordIndex(at.0 + 1));
    if is_transfer(instruction) && (!slot || in_slot) {
        return false;
    }
    !ordinary || edges_flow(count, at, instruction)
}
