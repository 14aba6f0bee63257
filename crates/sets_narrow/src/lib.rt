// What a comparison with a number leaves of a set. (Document 01, "A branch with note 2 narrows a
// noted number".)
#![tactic(auto)]

ghost use Rattle.std.specs.Prelude.{◌≡◌};
ghost use Rattle.sets_narrow.specs.Narrow.{at_most, at_least, less_than, greater_than, is_member, only, without, narrow_set};

use alu::Narrowing;
use sets::natural::{remainder, round_down};
use sets::{NumberSet, ended, single};

// The members up to `n`.
#[tactic(auto, using(v8::proofs::Choice::tests), unfolding(crate::specs::Narrow::at_most))]
fn at_most(a: NumberSet, n: u32) -> Option<NumberSet>
    ensures { result ≡ at_most a n }
{
    if n < a.lo {
        return None;
    }
    let span = round_down(a.hi.min(n).saturating_sub(a.lo), a.step);
    Some(ended(a.step, a.lo, a.lo + span))
}

// The members from `n` on.
#[tactic(auto, using(v8::proofs::Choice::tests), unfolding(crate::specs::Narrow::at_least))]
fn at_least(a: NumberSet, n: u32) -> Option<NumberSet>
    ensures { result ≡ at_least a n }
{
    if a.hi < n {
        return None;
    }
    let span = round_down(a.hi.saturating_sub(a.lo.max(n)), a.step);
    Some(ended(a.step, a.hi - span, a.hi))
}

// The members below `n`.
#[tactic(auto, using(v8::proofs::Choice::tests), unfolding(crate::specs::Narrow::less_than))]
fn less_than(a: NumberSet, n: u32) -> Option<NumberSet>
    ensures { result ≡ less_than a n }
{
    at_most(a, n.checked_sub(1)?)
}

// The members above `n`.
#[tactic(auto, using(v8::proofs::Choice::tests), unfolding(crate::specs::Narrow::at_least))]
fn greater_than(a: NumberSet, n: u32) -> Option<NumberSet>
    ensures { result ≡ greater_than a n }
{
    at_least(a, n.checked_add(1)?)
}

// Whether `n` is one of the set.
#[tactic(auto, unfolding(crate::specs::Narrow::is_member))]
fn is_member(a: NumberSet, n: u32) -> bool
    ensures { result ≡ is_member a n }
{
    let rest = remainder(n.saturating_sub(a.lo), a.step);
    (a.lo <= n) & (n <= a.hi) & (rest == 0)
}

// The member `n` alone.
#[tactic(auto, using(v8::proofs::Choice::tests), unfolding(crate::specs::Narrow::only))]
fn only(a: NumberSet, n: u32) -> Option<NumberSet>
    ensures { result ≡ only a n }
{
    is_member(a, n).then_some(single(n))
}

// The set without `n` where `n` is an end.
#[tactic(auto, using(v8::proofs::Choice::tests), unfolding(crate::specs::Narrow::without))]
fn without(a: NumberSet, n: u32) -> Option<NumberSet>
    ensures { result ≡ without a n }
{
    if n == a.lo {
        return greater_than(a, n);
    }
    if n == a.hi {
        return less_than(a, n);
    }
    Some(a)
}

// What a condition of this class leaves of a set compared with `n`.
pub fn narrow_set(class: Narrowing, a: NumberSet, n: u32) -> Option<NumberSet>
    ensures { result ≡ narrow_set class a n }
{
    match class {
        Narrowing::Unrelated => Some(a),
        Narrowing::EqualTo => only(a, n),
        Narrowing::NotEqualTo => without(a, n),
        Narrowing::LessThan => less_than(a, n),
        Narrowing::AtLeast => at_least(a, n),
        Narrowing::AtMost => at_most(a, n),
        Narrowing::GreaterThan => greater_than(a, n),
    }
}
