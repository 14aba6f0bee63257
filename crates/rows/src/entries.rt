// Entries: the kinds, an entry of each, their form, and when one fits another (specs/Entry.antt).
ghost use Rattle.std.specs.Prelude.{◌≡◌, ◌≤◌};
ghost use Rattle.rows.specs.Entry.{no_entry, number_in, address_in, start_or_null, constant, region_start, is_constant, only_zero, is_zero, is_region_start, size_in, entry_ok, fits, field_entry};

use crate::Entry;
use policy::{Field, Regions};
use sets::{NumberSet, ended, fits_set, set_ok, single};
use v8::signed::{BIAS, excess};

// The kinds. They stay numbers: `read_entry` takes any byte for a kind (`entry_of`), and the form of a
// row tells those that are none.

// Nothing is known of the register.
pub const UNSET: u8 = 0;
// A number of the set.
pub const NUMBER: u8 = 1;
// The address of the region's start plus an offset of the set.
pub const ADDRESS: u8 = 2;
// The address of the region's start, or null.
pub const START_OR_NULL: u8 = 3;
// The return address.
pub const RETURN_ADDRESS: u8 = 4;
// The frame address.
pub const FRAME_ADDRESS: u8 = 5;

// The set of a kind that has none.
pub const BLANK: NumberSet = NumberSet {
    step: 0,
    lo: BIAS,
    hi: BIAS,
};

// The entry of a register of which nothing is known.
pub fn no_entry() -> Entry
    ensures { result ≡ no_entry }
{
    Entry {
        kind: UNSET,
        region: 0,
        set: NumberSet {
            step: 0,
            lo: 0,
            hi: 0,
        },
    }
}

// A number of this set.
pub fn number_in(s: NumberSet) -> Entry
    ensures { result ≡ number_in s }
{
    Entry {
        kind: NUMBER,
        region: 0,
        set: s,
    }
}

// The address of a region's start plus an offset of this set.
pub fn address_in(r: u8, s: NumberSet) -> Entry
    ensures { result ≡ address_in r s }
{
    Entry {
        kind: ADDRESS,
        region: r,
        set: s,
    }
}

// The address of a region's start, or null.
pub fn start_or_null(r: u8) -> Entry
    ensures { result ≡ start_or_null r }
{
    Entry {
        kind: START_OR_NULL,
        region: r,
        set: BLANK,
    }
}

// The single number that a word stands for.
pub fn constant(word: u32) -> Entry
    ensures { result ≡ constant word }
{
    number_in(single(excess(word)))
}

// The start of a region.
pub fn region_start(r: u8) -> Entry
    ensures { result ≡ region_start r }
{
    address_in(r, single(BIAS))
}

// Whether the entry is a single number.
pub fn is_constant(e: Entry) -> bool
    ensures { result ≡ is_constant e }
{
    (e.kind == NUMBER) & (e.set.lo == e.set.hi)
}

// Whether the set is 0 alone.
fn only_zero(s: NumberSet) -> bool
    ensures { result ≡ only_zero s }
{
    (s.lo == BIAS) & (s.hi == BIAS)
}

// Whether the entry is the single number 0.
pub fn is_zero(e: Entry) -> bool
    ensures { result ≡ is_zero e }
{
    (e.kind == NUMBER) & only_zero(e.set)
}

// Whether the entry is the start of this region.
fn is_region_start(r: u8, e: Entry) -> bool
    ensures { result ≡ is_region_start r e }
{
    (e.kind == ADDRESS) & (e.region == r) & only_zero(e.set)
}

// The size of a region; there is none above 7.
#[tactic(auto, using(v8::proofs::Choice::tests), unfolding(crate::specs::Entry::size_in))]
pub fn size_in(regions: &Regions, r: u8) -> u32
    ensures { (result ≡ size_in regions.now.sizes r) × (result ≤ 65535) }
{
    if r < 8 {
        regions.sizes[r as usize] as u32
    } else {
        0
    }
}

// Whether an entry is well formed, where there are these regions.
#[tactic(auto, using(v8::proofs::Choice::tests), unfolding(crate::specs::Entry::entry_ok))]
pub fn entry_ok(regions: &Regions, e: Entry) -> bool
    ensures { result ≡ entry_ok regions.now.count regions.now.sizes e }
{
    match e.kind {
        NUMBER => (e.region == 0) & set_ok(e.set),
        ADDRESS => {
            let highest = BIAS + size_in(regions, e.region);
            let formed = set_ok(e.set);
            (e.region < regions.count) & formed & (BIAS <= e.set.lo) & (e.set.hi <= highest)
        }
        START_OR_NULL => (e.region < regions.count) & (e.set == BLANK),
        UNSET | RETURN_ADDRESS | FRAME_ADDRESS => (e.region == 0) & (e.set == BLANK),
        _ => false,
    }
}

// Whether what a register holds by entry `a` obeys entry `b`.
#[tactic(auto, using(v8::proofs::Choice::tests), unfolding(crate::specs::Entry::fits))]
pub fn fits(a: Entry, b: Entry) -> bool
    ensures { result ≡ fits a b }
{
    match b.kind {
        UNSET => true,
        NUMBER => (a.kind == NUMBER) & fits_set(a.set, b.set),
        ADDRESS => (a.kind == ADDRESS) & (a.region == b.region) & fits_set(a.set, b.set),
        START_OR_NULL => {
            let zero_or_start = is_zero(a) | is_region_start(b.region, a);
            (a.kind == START_OR_NULL) & (a.region == b.region) | zero_or_start
        }
        RETURN_ADDRESS => a.kind == RETURN_ADDRESS,
        FRAME_ADDRESS => a.kind == FRAME_ADDRESS,
        _ => false,
    }
}

// What a load of a field gives.
#[tactic(auto, using(v8::proofs::Choice::tests), unfolding(crate::specs::Entry::field_entry))]
pub fn field_entry(f: Field) -> Entry
    ensures { result ≡ field_entry f }
{
    match f.element {
        0..6 => number_in(ended(1, f.lo, f.hi)),
        6 => region_start(f.target),
        _ => start_or_null(f.target),
    }
}
