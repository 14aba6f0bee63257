// What an instruction makes of its operands' entries: the first rule that matches
// (specs/Result.antt).
ghost use Rattle.std.specs.Prelude.{◌≡◌};
ghost use Rattle.rows.specs.Entry.{word_of};
ghost use Rattle.rules.specs.Result.{constants, both_numbers, offsets_give, address_sum, address_difference, address_rule, is_or, is_sub, alu_result, shift_result};

use crate::Result;
use alu::{alu, shift};
use policy::Regions;
use rows::Entry;
use rows::entries::{
    ADDRESS, FRAME_ADDRESS, NUMBER, START_OR_NULL, address_in, constant, is_constant, is_zero,
    number_in, size_in,
};
use sets::{NumberSet, full};
use sets_rules::{add_sets, alu_sets, shift_set, sub_sets};
use v8::numbers::{NO_RULE, OUTSIDE_REGION};
use v8::signed::{BIAS, excess};
use v8::{AluOp, ShiftOp};

// The word of a single number.
pub fn word_of(e: Entry) -> u32
    ensures { result ≡ word_of e }
{
    excess(e.set.lo)
}

// Whether both entries are single numbers.
fn both_constants(a: Entry, b: Entry) -> bool
    ensures { result ≡ constants a b }
{
    is_constant(a) && is_constant(b)
}

// Whether both entries are numbers.
fn both_numbers(a: Entry, b: Entry) -> bool
    ensures { result ≡ both_numbers a b }
{
    a.kind == NUMBER && b.kind == NUMBER
}

// Offsets of a region, if none lies outside it.
#[tactic(auto, unfolding(crate::specs::Result::offsets_give))]
fn offsets_give(regions: &Regions, r: u8, s: NumberSet) -> Result
    ensures { result ≡ offsets_give regions.now.sizes r s }
{
    let size = size_in(regions, r);
    if BIAS <= s.lo && s.hi <= BIAS + size {
        return Result::Gives(address_in(r, s));
    }
    Result::Fails(OUTSIDE_REGION)
}

// The sum of an address and a number.
#[tactic(auto, unfolding(crate::specs::Result::address_sum))]
fn address_sum(regions: &Regions, a: Entry, b: Entry) -> Result
    ensures { result ≡ address_sum regions.now.sizes a b }
{
    if a.kind == ADDRESS && b.kind == NUMBER {
        return offsets_give(regions, a.region, add_sets(a.set, b.set));
    }
    if a.kind == NUMBER && b.kind == ADDRESS {
        return offsets_give(regions, b.region, add_sets(a.set, b.set));
    }
    Result::Fails(NO_RULE)
}

// An address minus a number.
#[tactic(auto, unfolding(crate::specs::Result::address_difference))]
fn address_difference(regions: &Regions, a: Entry, b: Entry) -> Result
    ensures { result ≡ address_difference regions.now.sizes a b }
{
    if a.kind == ADDRESS && b.kind == NUMBER {
        return offsets_give(regions, a.region, sub_sets(a.set, b.set));
    }
    if a.kind == START_OR_NULL && is_zero(b) {
        return Result::Gives(a);
    }
    Result::Fails(NO_RULE)
}

// What an operation makes of operands that are not both numbers.
fn address_rule(regions: &Regions, op: AluOp, a: Entry, b: Entry) -> Result
    ensures { result ≡ address_rule regions.now.sizes op a b }
{
    match op {
        AluOp::Add => address_sum(regions, a, b),
        AluOp::Sub => address_difference(regions, a, b),
        _ => Result::Fails(NO_RULE),
    }
}

// Whether the operation is OR.
fn is_or(op: AluOp) -> bool
    ensures { result ≡ is_or op }
{
    matches!(op, AluOp::Or)
}

// Whether the operation is SUB.
pub fn is_sub(op: AluOp) -> bool
    ensures { result ≡ is_sub op }
{
    matches!(op, AluOp::Sub)
}

// What arithmetic and logic make of two entries.
#[tactic(auto, unfolding(crate::specs::Result::alu_result))]
pub fn alu_result(regions: &Regions, op: AluOp, a: Entry, b: Entry) -> Result
    ensures { result ≡ alu_result regions.now.sizes op a b }
{
    if a.kind == FRAME_ADDRESS || b.kind == FRAME_ADDRESS {
        return Result::Fails(NO_RULE);
    }
    let constants = both_constants(a, b);
    let or = is_or(op);
    if constants {
        return Result::Gives(constant(alu(op, word_of(a), word_of(b))));
    }
    if or && is_zero(a) {
        return Result::Gives(b);
    }
    if or && is_zero(b) {
        return Result::Gives(a);
    }
    if both_numbers(a, b) {
        return Result::Gives(number_in(alu_sets(op, a.set, b.set)));
    }
    address_rule(regions, op, a, b)
}

// What a shift makes of an entry and the count's.
#[tactic(auto, unfolding(crate::specs::Result::shift_result))]
pub fn shift_result(op: ShiftOp, a: Entry, b: Entry) -> Result
    ensures { result ≡ shift_result op a b }
{
    if both_constants(a, b) {
        return Result::Gives(constant(shift(op, word_of(a), word_of(b))));
    }
    let numbers = both_numbers(a, b);
    if numbers && is_constant(b) {
        return Result::Gives(number_in(shift_set(op, a.set, word_of(b))));
    }
    if numbers {
        return Result::Gives(number_in(full()));
    }
    Result::Fails(NO_RULE)
}
