// Fields and regions as items.
use crate::items::{done, signed, value};
use output::print;
use policy::{Field, Policy};

// A field's values, which end the item.
pub fn end_field(f: Field) {
    value(f.element as u64);
    value(f.permission as u64);
    value(f.target as u64);
    value(f.offset.0 as u64);
    value(f.count as u64);
    signed(f.lo);
    signed(f.hi);
    done();
}

// The field k of a region.
fn show_field(k: usize, f: Field) {
    print(b"field");
    value(k as u64);
    end_field(f);
}

// A region with its fields.
pub fn show_region(policy: &Policy, region: usize) {
    if 8 <= region {
        return;
    }
    let count = policy.regions.fields[region] as usize;
    print(b"region");
    value(region as u64);
    value(policy.regions.sizes[region] as u64);
    value(count as u64);
    done();
    for k in 0..count {
        show_field(k, policy.fields[16 * region + k % 16]);
    }
}
