// The form of a set of numbers, and when one lies in another.
ghost use Rattle.std.specs.Prelude.{◌≡◌};
ghost use Rattle.sets.specs.Sets.{single, full, ended, is_step, set_ok, fits_set};

use crate::NumberSet;
use crate::bounds::LAST;
use crate::natural::remainder;

// One number: "a single number has step 8".
pub fn single(n: u32) -> NumberSet
    ensures { result ≡ single n }
{
    NumberSet {
        step: 8,
        lo: n,
        hi: n,
    }
}

// All 32-bit values.
pub fn full() -> NumberSet
    ensures { result ≡ full }
{
    NumberSet {
        step: 1,
        lo: 0,
        hi: LAST,
    }
}

// The set with these ends; with one member it takes step 8.
#[tactic(auto, using(v8::proofs::Choice::tests), unfolding(crate::specs::Sets::ended))]
pub fn ended(step: u8, lo: u32, hi: u32) -> NumberSet
    ensures { result ≡ ended step lo hi }
{
    if lo == hi {
        single(lo)
    } else {
        NumberSet { step, lo, hi }
    }
}

// Whether a number is a step.
fn is_step(step: u8) -> bool
    ensures { result ≡ is_step step }
{
    matches!(step, 1 | 2 | 4 | 8)
}

// Whether a set is well formed.
#[tactic(auto, unfolding(crate::specs::Sets::set_ok))]
pub fn set_ok(s: NumberSet) -> bool
    ensures { result ≡ set_ok s }
{
    let step = is_step(s.step);
    let rest = remainder(s.hi.saturating_sub(s.lo), s.step);
    step & (s.lo <= s.hi) & (rest == 0) & ((s.lo != s.hi) | (s.step == 8))
}

// Whether the set of `a` lies in that of `b`, both well formed.
#[tactic(auto, unfolding(crate::specs::Sets::fits_set))]
pub fn fits_set(a: NumberSet, b: NumberSet) -> bool
    ensures { result ≡ fits_set a b }
{
    let between = (b.lo <= a.lo) & (a.hi <= b.hi);
    let finer = b.step <= a.step;
    between & finer & (remainder(a.lo.saturating_sub(b.lo), b.step) == 0)
}
