// The shape of what is handed in: what 21 asks (specs/Shape.antt).
#![tactic(auto)]

ghost use Rattle.std.specs.Prelude.{◌≡◌, length};
ghost use Rattle.passes_shape.specs.Shape.{start_ok, shape_ok};

use policy::{Policy, Regions};
use rows::entries::FRAME_ADDRESS;
use rows::geometry::{ENTRY_BYTES, ROW_BYTES};
use rows::{entry_formed, form_fault, read_entry, scratch_unset};
use v8::numbers::MOST_WORDS;

// Whether the words are as many as they may be, and the entry row is one that is well formed, its
// scratch words unset.
#[tactic(auto, using(v8::proofs::Choice::tests))]
pub fn start_ok(regions: &Regions, words: &[u32], entry: &[u8]) -> bool
    ensures { result ≡ start_ok regions.now.count regions.now.sizes (length words.now) entry.now }
{
    let count = words.len();
    if (count < 1) | (MOST_WORDS < count) | (entry.len() != ROW_BYTES) {
        return false;
    }
    form_fault(regions, entry, 0).is_none() & scratch_unset(entry, 0)
}

// Whether words, rows, entry row and result entry are as many as they must be, and the last two
// well formed; the result entry is r8's, which is not the frame address.
#[tactic(auto, using(v8::proofs::Choice::tests), unfolding(crate::specs::Shape::shape_ok))]
pub fn shape_ok(policy: &Policy, words: &[u32], rows: &[u8], entry: &[u8], res: &[u8]) -> bool
    ensures { result ≡ shape_ok policy.now (length words.now) rows.now entry.now res.now }
{
    if !start_ok(&policy.regions, words, entry) {
        return false;
    }
    if (rows.len() != ROW_BYTES * words.len()) | (res.len() != ENTRY_BYTES) {
        return false;
    }
    let e = read_entry(res, 0);
    entry_formed(&policy.regions, res, 0) & (e.kind != FRAME_ADDRESS)
}
