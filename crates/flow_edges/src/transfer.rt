// Transfers: which instructions they are, whether a slot runs, where a branch goes
// (specs/Transfer.antt).
ghost use Rattle.std.specs.Prelude.{◌≡◌, ◌<◌};
ghost use Rattle.v8.specs.Numbers.{most_words};
ghost use Rattle.flow_edges.specs.Transfer.{is_transfer, reads_codes, has_edge, slot_runs, target_of, landing};

use v8::numbers::{ALWAYS, NEVER};
use v8::{Bicc, Instruction, WordIndex};

// r15, where the leaf return finds the return address.
pub const LINK: u8 = 15;

// Whether an instruction is a transfer: a branch or the return.
pub fn is_transfer(x: Instruction) -> bool
    ensures { result ≡ is_transfer x }
{
    matches!(x, Instruction::Branch(_) | Instruction::Return)
}

// Whether a branch on this condition reads the codes.
pub fn reads_codes(condition: u8) -> bool
    ensures { result ≡ reads_codes condition }
{
    condition != NEVER && condition != ALWAYS
}

// Whether a branch on this condition has the edge that is taken, or the other.
pub fn has_edge(condition: u8, taken: bool) -> bool
    ensures { result ≡ has_edge condition taken }
{
    if taken {
        condition != NEVER
    } else {
        condition != ALWAYS
    }
}

// Whether the slot of a branch runs.
#[tactic(auto, unfolding(crate::specs::Transfer::slot_runs))]
pub fn slot_runs(b: Bicc, taken: bool) -> bool
    ensures { result ≡ slot_runs b taken }
{
    !(b.annul && (b.cond == ALWAYS || !taken))
}

// The word that a taken branch goes to, its distance counted in words from the branch.
#[tactic(auto, unfolding(crate::specs::Transfer::target_of))]
pub fn target(at: WordIndex, b: Bicc) -> WordIndex
    ensures { result ≡ record { 0 = target_of at.0 b } }
{
    WordIndex(at.0.wrapping_add(b.distance.0))
}

// Where a branch goes: to its target, or past its slot.
pub fn landing_of(at: WordIndex, b: Bicc, taken: bool) -> WordIndex
    requires { at.0 < most_words }
    ensures { result ≡ record { 0 = landing at.0 b taken } }
{
    if taken {
        target(at, b)
    } else {
        WordIndex(at.0 + 2)
    }
}
