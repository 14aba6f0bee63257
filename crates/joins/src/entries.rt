// The least entry that two entries fit (specs/Join.antt).
ghost use Rattle.std.specs.Prelude.{◌≡◌};
ghost use Rattle.joins.specs.Join.{of_one_sort, unset, region_named, if_both_fit, start_or_unset, join_of};

use crate::numbers::join_sets;
use rows::Entry;
use rows::entries::{ADDRESS, BLANK, NUMBER, UNSET, fits, start_or_null};

// Whether both are numbers, or addresses of one region.
fn of_one_sort(a: Entry, b: Entry) -> bool
    ensures { result ≡ of_one_sort a b }
{
    (a.kind == NUMBER) & (b.kind == NUMBER)
        | (a.kind == ADDRESS) & (b.kind == ADDRESS) & (a.region == b.region)
}

// The unset entry, as a row has it.
pub fn unset() -> Entry
    ensures { result ≡ unset }
{
    Entry {
        kind: UNSET,
        region: 0,
        set: BLANK,
    }
}

// The region that the first names if it is an address, otherwise the second's.
fn region_named(a: Entry, b: Entry) -> u8
    ensures { result ≡ region_named a b }
{
    if a.kind == ADDRESS {
        a.region
    } else {
        b.region
    }
}

// An entry if both fit it; otherwise unset.
#[tactic(auto, unfolding(crate::specs::Join::if_both_fit))]
fn if_both_fit(a: Entry, b: Entry, e: Entry) -> Entry
    ensures { result ≡ if_both_fit a b e }
{
    if fits(a, e) & fits(b, e) {
        return e;
    }
    unset()
}

// The start of the named region or null, if both fit that; otherwise unset.
fn start_or_unset(a: Entry, b: Entry) -> Entry
    ensures { result ≡ start_or_unset a b }
{
    if_both_fit(a, b, start_or_null(region_named(a, b)))
}

// The least entry that two well formed entries fit.
#[tactic(auto, unfolding(crate::specs::Join::join_of))]
pub fn join(a: Entry, b: Entry) -> Entry
    ensures { result ≡ join_of a b }
{
    if fits(b, a) {
        return a;
    }
    if fits(a, b) {
        return b;
    }
    if of_one_sort(a, b) {
        return Entry {
            set: join_sets(a.set, b.set),
            ..a
        };
    }
    start_or_unset(a, b)
}
