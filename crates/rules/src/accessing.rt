// Loads and stores (specs/Change.antt).
ghost use Rattle.std.specs.Prelude.{◌≡◌, ◌<◌};
ghost use Rattle.memory.specs.Frame.{scratch_count};
ghost use Rattle.rows.specs.Geometry.{scratch_entry};
ghost use Rattle.rules.specs.Change.{stores, accessed, kept_at, access_change};

use crate::notes::note_after;
use crate::reaching::reach_of;
use crate::{Change, Operands, Reach};
use policy::Policy;
use rows::entries::{FRAME_ADDRESS, UNSET};
use rows::geometry::{scratch_entry, scratch_name};
use rows::{Entry, Note, Row, entry_at, field_entry, fits};
use v8::Access;
use v8::numbers::{UNSET_OPERAND, WRONG_VALUE};

// An access of rd, whose entry is `e`, to an element that holds `held`: a load writes that to its
// register, `to`, and a store asks that `e` fits it.
fn accessed(n: Note, a: Access, to: u8, rd: u8, e: Entry, held: Entry) -> Change
    ensures { result ≡ accessed n a to rd e held }
{
    match a {
        Access::Loads(_) => Change::Writes(to, held, note_after(n, to)),
        Access::Stores(_) => {
            if fits(e, held) {
                return Change::Keeps;
            }
            Change::Breaks(WRONG_VALUE, rd)
        }
    }
}

// An access of a register, whose entry is `e`, to scratch word k: a load writes the entry kept there to
// its register, `to`, and a store keeps `e`.
fn kept_at(row: Row, a: Access, to: u8, e: Entry, k: u8) -> Change
    requires { k < scratch_count }
    ensures { result ≡ kept_at row a to e (scratch_entry k) }
{
    let i = scratch_entry(k);
    match a {
        Access::Loads(_) => {
            let held = entry_at(row, i);
            if held.kind == UNSET {
                return Change::Breaks(UNSET_OPERAND, scratch_name(k));
            }
            Change::Writes(to, held, note_after(row.note, to))
        }
        Access::Stores(_) => Change::Writes(i, e, note_after(row.note, i)),
    }
}

// Whether an access reads rd, as a store does.
fn stores(a: Access) -> bool
    ensures { result ≡ stores a }
{
    matches!(a, Access::Stores(_))
}

// A load to the register `to`, or a store of rd, at the sum of a word's operands.
#[tactic(auto, unfolding(crate::specs::Change::access_change, policy::specs::Policy::field_at))]
pub fn access_change(policy: &Policy, row: Row, a: Access, to: u8, rd: u8, o: Operands) -> Change
    ensures { result ≡ access_change policy.now row a to rd o }
{
    let e = entry_at(row, rd);
    if o.first.kind == UNSET {
        return Change::Breaks(UNSET_OPERAND, o.rs1);
    }
    if o.second.kind == UNSET {
        return Change::Breaks(UNSET_OPERAND, o.rs2);
    }
    let reads = stores(a);
    if reads && e.kind == UNSET {
        return Change::Breaks(UNSET_OPERAND, rd);
    }
    match reach_of(policy, a, reads && e.kind == FRAME_ADDRESS, o) {
        Reach::Inside(place) => accessed(row.note, a, to, rd, e, field_entry(policy.fields[place])),
        Reach::Scratch(k) => kept_at(row, a, to, e, k),
        Reach::Outside(number, named) => Change::Breaks(number, named),
    }
}
