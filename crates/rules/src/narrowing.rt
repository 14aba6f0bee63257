// What a comparison leaves of an entry (specs/Narrow.antt).
ghost use Rattle.std.specs.Prelude.{◌≡◌};
ghost use Rattle.rules.specs.Narrow.{narrows, narrow_start, narrow_entry};

use alu::Narrowing;
use rows::Entry;
use rows::entries::{NUMBER, START_OR_NULL, constant, number_in, region_start};
use sets_narrow::narrow_set;
use v8::signed::BIAS;

// Whether a condition of this class says how the numbers compare.
pub fn narrows(class: Narrowing) -> bool
    ensures { result ≡ narrows class }
{
    !matches!(class, Narrowing::Unrelated)
}

// What is left of a region's start or null, compared with 0.
fn narrow_start(class: Narrowing, e: Entry) -> Entry
    ensures { result ≡ narrow_start class e }
{
    match class {
        Narrowing::EqualTo => constant(0),
        Narrowing::NotEqualTo => region_start(e.region),
        _ => e,
    }
}

// What a condition of this class leaves of an entry whose value was compared with n, in excess form.
#[tactic(auto, unfolding(crate::specs::Narrow::narrow_entry))]
pub fn narrow_entry(class: Narrowing, e: Entry, n: u32) -> Option<Entry>
    ensures { result ≡ narrow_entry class e n }
{
    if e.kind == NUMBER {
        return Some(number_in(narrow_set(class, e.set, n)?));
    }
    if e.kind == START_OR_NULL && n == BIAS {
        return Some(narrow_start(class, e));
    }
    Some(e)
}
