// The least note that two notes fit (specs/Join.antt).
ghost use Rattle.std.specs.Prelude.{◌≡◌};
ghost use Rattle.joins.specs.Join.{join_note};

use rows::Note;
use rows::notes::{codes_set, fits_note};

// The least note that two notes fit. Where neither fits the other, neither is unset.
#[tactic(auto, unfolding(crate::specs::Join::join_note))]
pub fn join_note(a: Note, b: Note) -> Note
    ensures { result ≡ join_note a b }
{
    if fits_note(b, a) {
        return a;
    }
    if fits_note(a, b) {
        return b;
    }
    codes_set()
}
