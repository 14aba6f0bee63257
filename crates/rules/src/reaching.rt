// Where an access lies, by the entries of the two operands that it adds (specs/Reach.antt). The
// conditions are tested in the order of the returns.
ghost use Rattle.std.specs.Prelude.{◌≡◌, ◌-◌, ◌<◌, ◌≤◌};
ghost use Rattle.access.specs.Serve.{access_width};
ghost use Rattle.rules.specs.Reach.{reach_end, on_grid, in_field, in_region, in_frame, frame_reach, reach_of};
ghost use Rattle.v8.specs.Signed.{bias};

use crate::results::word_of;
use crate::{Operands, Reach};
use access::{allowed, is_word, serves_element, width_of};
use memory::frame::{is_scratch, scratch_at};
use policy::{Field, Policy};
use policy_search::find_in;
use rows::Entry;
use rows::entries::{ADDRESS, FRAME_ADDRESS, NUMBER, START_OR_NULL, is_constant};
use sets::NumberSet;
use sets_rules::add_sets;
use v8::numbers::{
    MAYBE_NULL, NO_RULE, NOT_ALLOWED, OFF_GRID, OUTSIDE_FIELDS, TOO_HIGH, WRONG_ELEMENT,
};
use v8::signed::BIAS;
use v8::{Access, ByteOffset};

// The offset whose excess form is n; 0 for a negative one.
fn offset_of(n: u32) -> u32
    ensures { (result ≡ n - bias) × (result ≤ 2147483647) }
{
    if n < BIAS { 0 } else { n - BIAS }
}

// The end of the bytes that an access to these offsets reaches.
fn reach_end(s: NumberSet, a: Access) -> u32
    ensures { result ≡ reach_end s (access_width a) }
{
    let width = width_of(a);
    offset_of(s.hi) + width
}

// Whether the offsets lie on the grid of elements as wide as the access.
fn on_grid(s: NumberSet, a: Access) -> bool
    ensures { result ≡ on_grid s (access_width a) }
{
    let width = width_of(a);
    s.lo % width == 0 && s.step as u32 % width == 0
}

// Where an access to offsets of a field lies, which stands at a place.
#[tactic(auto, unfolding(crate::specs::Reach::in_field))]
fn in_field(f: &Field, a: Access, rs1: u8, s: NumberSet, place: usize) -> Reach
    ensures { result ≡ in_field f.now a rs1 s place }
{
    if 4096 < reach_end(s, a) {
        return Reach::Outside(TOO_HIGH, rs1);
    }
    if !serves_element(a, f.element) {
        return Reach::Outside(WRONG_ELEMENT, rs1);
    }
    if !on_grid(s, a) {
        return Reach::Outside(OFF_GRID, rs1);
    }
    if !allowed(a, f.permission) {
        return Reach::Outside(NOT_ALLOWED, rs1);
    }
    Reach::Inside(place)
}

// Where an access to these offsets of a region lies.
#[tactic(auto, unfolding(crate::specs::Reach::in_region))]
fn in_region(policy: &Policy, a: Access, rs1: u8, region: u8, s: NumberSet) -> Reach
    ensures { result ≡ in_region policy.now.regions.fields policy.now.fields a rs1 region s }
{
    if s.lo < BIAS {
        return Reach::Outside(OUTSIDE_FIELDS, rs1);
    }
    let low = ByteOffset(offset_of(s.lo));
    let end = ByteOffset(reach_end(s, a));
    match find_in(policy, region, low, end).found {
        Some(place) => in_field(&policy.fields[place], a, rs1, s, place),
        None => Reach::Outside(OUTSIDE_FIELDS, rs1),
    }
}

// Where an access to an offset of the frame lies: at a scratch word, if it is of a word.
#[tactic(auto, unfolding(crate::specs::Reach::in_frame))]
fn in_frame(a: Access, rs1: u8, offset: u32) -> Reach
    ensures { result ≡ in_frame a rs1 offset }
{
    let at = ByteOffset(offset);
    if !is_scratch(at) {
        return Reach::Outside(OUTSIDE_FIELDS, rs1);
    }
    if !is_word(a) {
        return Reach::Outside(WRONG_ELEMENT, rs1);
    }
    Reach::Scratch(scratch_at(at))
}

// Where an access lies that adds no region's address: at an offset of the frame, or there is no rule.
#[tactic(auto, unfolding(crate::specs::Reach::frame_reach))]
fn frame_reach(a: Access, rs1: u8, x: Entry, y: Entry) -> Reach
    ensures { result ≡ frame_reach a rs1 x y }
{
    if x.kind == FRAME_ADDRESS && is_constant(y) {
        return in_frame(a, rs1, word_of(y));
    }
    if is_constant(x) && y.kind == FRAME_ADDRESS {
        return in_frame(a, rs1, word_of(x));
    }
    Reach::Outside(NO_RULE, rs1)
}

// Where an access lies whose address is the sum of its operands; `frame` says that it would store the
// frame address.
#[tactic(auto, unfolding(crate::specs::Reach::reach_of))]
pub fn reach_of(policy: &Policy, a: Access, frame: bool, o: Operands) -> Reach
    ensures { result ≡ reach_of policy.now.regions.fields policy.now.fields a frame o.rs1 o.first o.rs2 o.second }
{
    let Operands {
        rs1,
        first: x,
        rs2,
        second: y,
    } = o;
    if x.kind == START_OR_NULL {
        return Reach::Outside(MAYBE_NULL, rs1);
    }
    if y.kind == START_OR_NULL {
        return Reach::Outside(MAYBE_NULL, rs2);
    }
    if frame {
        return Reach::Outside(NO_RULE, rs1);
    }
    if x.kind == ADDRESS && y.kind == NUMBER {
        return in_region(policy, a, rs1, x.region, add_sets(x.set, y.set));
    }
    if x.kind == NUMBER && y.kind == ADDRESS {
        return in_region(policy, a, rs1, y.region, add_sets(x.set, y.set));
    }
    frame_reach(a, rs1, x, y)
}
