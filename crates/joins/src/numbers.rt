// The least set that two sets of numbers lie in (specs/Join.antt).
ghost use Rattle.std.specs.Prelude.{◌≡◌, ◌≤◌};
ghost use Rattle.joins.specs.Join.{is_common, common_step, join_sets};

use sets::{NumberSet, ended};

// Whether a step is at most two others and divides a distance.
fn is_common(step: u8, a: u8, b: u8, distance: u32) -> bool
    requires { 1 ≤ step }
    ensures { result ≡ is_common step a b distance }
{
    (step <= a) & (step <= b) & (distance % step as u32 == 0)
}

// The largest step that is at most two steps and divides a distance. One test for each step, as the
// definition has them: must-fail edits change one of them in both.
#[tactic(auto, unfolding(crate::specs::Join::common_step))]
fn common_step(a: u8, b: u8, distance: u32) -> u8
    ensures { result ≡ common_step a b distance }
{
    if is_common(8, a, b, distance) {
        return 8;
    }
    if is_common(4, a, b, distance) {
        return 4;
    }
    if is_common(2, a, b, distance) {
        return 2;
    }
    1
}

// The least set that two well formed sets lie in.
#[tactic(auto, unfolding(crate::specs::Join::join_sets))]
pub fn join_sets(a: NumberSet, b: NumberSet) -> NumberSet
    ensures { result ≡ join_sets a b }
{
    let lo = a.lo.min(b.lo);
    let hi = a.hi.max(b.hi);
    let step = common_step(a.step, b.step, a.lo.max(b.lo) - lo);
    ended(step, lo, hi)
}
