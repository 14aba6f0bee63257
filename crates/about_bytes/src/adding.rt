// A policy that is refused: the region or the field whose add is.
ghost use Rattle.std.specs.Prelude.{◌<◌};

use about_items::fields::end_field;
use about_items::items::{done, single, value};
use bundle_layout::{
    HEAD_BYTES, REGION_BYTES, field_count, field_place, fields_before, region_count,
};
use bundle_open::building::{field_read, region_size};
use output::print;
use policy::element::width_of;
use policy::{Field, Policy};
use v8::numbers::ACCEPTED;

// Where a field's elements end.
fn end_of(f: Field) -> u64 {
    f.offset.0 as u64 + width_of(f.element) as u64 * f.count as u64
}

// The first test that a field breaks whose add is refused, after fields that end before it.
fn test_of(size: u64, end: u64, f: Field) -> u64 {
    if f.element < 1 || 7 < f.element {
        return 1;
    }
    if f.permission < 1 || 3 < f.permission {
        return 2;
    }
    if f.count < 1 {
        return 3;
    }
    if f.offset.0 % width_of(f.element) as u32 != 0 {
        return 4;
    }
    if size < end_of(f) {
        return 5;
    }
    if (f.offset.0 as u64) < end {
        return 7;
    }
    6
}

// A field whose add is refused.
fn show_field(at: usize, size: u64, end: u64, r: usize, k: usize, f: Field) {
    single(b"at", at as u64);
    print(b"part field");
    value(r as u64);
    value(k as u64);
    done();
    print(b"field");
    value(k as u64);
    end_field(f);
    single(b"size", size);
    single(b"end", end);
    if k < 16 {
        single(b"breaks", test_of(size, end, f));
    }
}

// The adds of a region's fields, up to the first that is refused, which is shown; the policy after them,
// or none.
fn add_fields(bytes: &[u8], region: usize, mut policy: Policy) -> Option<Policy>
    requires { region < 255 }
{
    let first = fields_before(bytes, region);
    let size = region_size(bytes, region) as u64;
    let mut end: u64 = 0;
    for k in 0..field_count(bytes, region) {
        let f = field_read(bytes, first + k);
        let built = policy.add_field(region as u8, f);
        if built.number != ACCEPTED {
            show_field(field_place(bytes, first + k), size, end, region, k, f);
            return None;
        }
        policy = built.policy;
        end = end_of(f);
    }
    Some(policy)
}

// The adds of the regions, up to the first that is refused, which is shown; the policy after them, or none.
fn add_regions(bytes: &[u8]) -> Option<Policy> {
    let mut policy = Policy::empty();
    for r in 0..region_count(bytes) {
        let size = region_size(bytes, r);
        let built = policy.add_region(size);
        if built.number != ACCEPTED {
            single(b"at", (HEAD_BYTES + REGION_BYTES * r) as u64);
            single(b"part region", r as u64);
            single(b"size", size as u64);
            return None;
        }
        policy = built.policy;
    }
    Some(policy)
}

// The region or the field whose add is refused.
pub fn show_adds(bytes: &[u8]) {
    let Some(mut policy) = add_regions(bytes) else {
        return;
    };
    for r in 0..region_count(bytes) {
        let Some(after) = add_fields(bytes, r, policy) else {
            return;
        };
        policy = after;
    }
}
