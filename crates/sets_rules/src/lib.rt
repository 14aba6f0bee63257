// What arithmetic, logic and shifts make of sets of numbers. (Document 01, "What each word does to a
// row", rules 3, 5 and 6.)
#![tactic(auto)]

ghost use Rattle.std.specs.Prelude.{◌≡◌, ◌*◌, ◌%◌, ◌^◌, ◌<◌, min};
ghost use Rattle.sets_rules.specs.Rules.{within, add_sets, sub_sets, and_sets, alu_sets, shifted_up, sll_set, shifted_down, sra_set, srl_set, shift_set};

use sets::bounds::MODULUS;
use sets::{NumberSet, ended, full};
use v8::signed::BIAS;
use v8::{AluOp, ShiftOp};

// The lowest signed number, held 2^32 more than it is.
const LOWEST: u64 = MODULUS - BIAS as u64;

// The first number above the highest signed one, so held.
const BEYOND: u64 = MODULUS + BIAS as u64;

// The set with these ends, each held 2^32 more than it is; full if one leaves signed 32 bits.
#[tactic(auto, using(v8::proofs::Choice::tests), unfolding(crate::specs::Rules::within))]
fn within(step: u8, lo: u64, hi: u64) -> NumberSet
    ensures { result ≡ within step lo hi }
{
    if (lo < LOWEST) | (hi < LOWEST) | (BEYOND <= lo) | (BEYOND <= hi) {
        return full();
    }
    NumberSet {
        step,
        lo: (lo - LOWEST) as u32,
        hi: (hi - LOWEST) as u32,
    }
}

// ADD.
#[tactic(auto, unfolding(crate::specs::Rules::add_sets))]
pub fn add_sets(a: NumberSet, b: NumberSet) -> NumberSet
    ensures { result ≡ add_sets a b }
{
    let step = a.step.min(b.step);
    let lo = a.lo as u64 + b.lo as u64;
    let hi = a.hi as u64 + b.hi as u64;
    within(step, lo, hi)
}

// SUB.
#[tactic(auto, unfolding(crate::specs::Rules::sub_sets))]
pub fn sub_sets(a: NumberSet, b: NumberSet) -> NumberSet
    ensures { result ≡ sub_sets a b }
{
    let step = a.step.min(b.step);
    let lo = a.lo as u64 + MODULUS - b.hi as u64;
    let hi = a.hi as u64 + MODULUS - b.lo as u64;
    within(step, lo, hi)
}

// AND.
#[tactic(auto, using(v8::proofs::Choice::tests), unfolding(crate::specs::Rules::and_sets))]
fn and_sets(a: NumberSet, b: NumberSet) -> NumberSet
    ensures { result ≡ and_sets a b }
{
    match (BIAS <= a.lo, BIAS <= b.lo) {
        (true, true) => ended(1, BIAS, a.hi.min(b.hi)),
        (true, false) => ended(1, BIAS, a.hi),
        (false, true) => ended(1, BIAS, b.hi),
        (false, false) => full(),
    }
}

// What an operation makes of two sets.
pub fn alu_sets(op: AluOp, a: NumberSet, b: NumberSet) -> NumberSet
    ensures { result ≡ alu_sets op a b }
{
    match op {
        AluOp::Add => add_sets(a, b),
        AluOp::And => and_sets(a, b),
        AluOp::Sub => sub_sets(a, b),
        AluOp::Or | AluOp::Xor | AluOp::Andn | AluOp::Orn | AluOp::Xnor => full(),
    }
}

// An end times 2^s, held 2^32 more than it is; 0 where that would be negative.
fn shifted_up(n: u32, s: u32) -> u64
    requires { s < 32 }
    ensures { result ≡ shifted_up n s }
{
    let top = ((n as u64) << s) + MODULUS;
    let low = (BIAS as u64) << s;
    top.saturating_sub(low)
}

// The step of a set shifted left.
fn shifted_step(step: u8, s: u32) -> u8
    requires { s < 32 }
    ensures { result ≡ min 8 (step * 2 ^ s) }
{
    let t = (step as u64) << s;
    t.min(8) as u8
}

// SLL by `s`.
#[tactic(auto, unfolding(crate::specs::Rules::sll_set))]
fn sll_set(a: NumberSet, s: u32) -> NumberSet
    requires { s < 32 }
    ensures { result ≡ sll_set a s }
{
    within(
        shifted_step(a.step, s),
        shifted_up(a.lo, s),
        shifted_up(a.hi, s),
    )
}

// An end divided by 2^s, rounding down.
fn shifted_down(n: u32, s: u32) -> u32
    requires { s < 32 }
    ensures { result ≡ shifted_down n s }
{
    (n >> s) + (BIAS - (BIAS >> s))
}

// SRA by `s`.
#[tactic(auto, unfolding(crate::specs::Rules::sra_set))]
fn sra_set(a: NumberSet, s: u32) -> NumberSet
    requires { s < 32 }
    ensures { result ≡ sra_set a s }
{
    ended(1, shifted_down(a.lo, s), shifted_down(a.hi, s))
}

// SRL by `s`.
#[tactic(auto, using(v8::proofs::Choice::tests), unfolding(crate::specs::Rules::srl_set))]
fn srl_set(a: NumberSet, s: u32) -> NumberSet
    requires { s < 32 }
    ensures { result ≡ srl_set a s }
{
    if BIAS <= a.lo {
        return sra_set(a, s);
    }
    if s == 0 {
        return full();
    }
    let hi = BIAS + ((1 << (32 - s)) - 1);
    NumberSet {
        step: 1,
        lo: BIAS,
        hi,
    }
}

// What a shift by a single count, of which the five low bits are used, makes of a set.
pub fn shift_set(op: ShiftOp, a: NumberSet, count: u32) -> NumberSet
    ensures { result ≡ shift_set op a (count % 32) }
{
    match op {
        ShiftOp::Sll => sll_set(a, count % 32),
        ShiftOp::Srl => srl_set(a, count % 32),
        ShiftOp::Sra => sra_set(a, count % 32),
    }
}
