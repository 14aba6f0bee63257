// The rules that a policy obeys (specs/Policy.antt).
ghost use Rattle.std.specs.Prelude.{◌≡◌, ◌<◌, ◌≤◌};
ghost use Rattle.policy.specs.Policy.{size_ok, values_ok, field_end, field_ok, end_before, field_follows, region_ok, policy_ok};

use crate::element::{LEASTS, MOSTS, width_of};
use crate::{Field, Policy};
use v8::ByteOffset;
use v8::signed::BIAS;

impl Field {
    // Where the field ends: the first byte after its elements.
    pub fn end(self) -> u64
        ensures { result ≡ field_end self }
    {
        let width = width_of(self.element);
        self.offset.0 as u64 + width as u64 * self.count as u64
    }
}

// Whether a region may have this size.
pub fn size_ok(size: u16) -> bool
    ensures { result ≡ size_ok size }
{
    (8 <= size) & (size <= 4096) & (size % 8 == 0)
}

// Whether a field's lo, hi and target are those that its element allows.
fn values_ok(regions: u8, f: Field) -> bool
    ensures { result ≡ values_ok regions f }
{
    if f.element < 6 {
        let i = f.element as usize;
        let least = LEASTS[i];
        let most = MOSTS[i];
        return (least <= f.lo) & (f.lo <= f.hi) & (f.hi <= most) & (f.target == 0);
    }
    (f.target < regions) & (f.lo == BIAS) & (f.hi == BIAS)
}

// Whether a field obeys the rules that concern it alone, in a region of this size.
fn field_ok(regions: u8, size: u16, f: Field) -> bool
    ensures { result ≡ field_ok regions size f }
{
    let width = width_of(f.element);
    let end = f.end();
    let values = values_ok(regions, f);
    (1 <= f.element)
        & (f.element <= 7)
        & (1 <= f.permission)
        & (f.permission <= 3)
        & (1 <= f.count)
        & (f.offset.0 % width as u32 == 0)
        & (end <= size as u64)
        & values
}

// Whether f obeys every rule after fields that end before it.
pub fn field_follows(regions: u8, size: u16, end: u64, f: Field) -> bool
    ensures { result ≡ field_follows regions size end f }
{
    let alone = field_ok(regions, size, f);
    let begin = f.offset.0 as u64;
    alone & (end <= begin)
}

impl Policy {
    // Where the fields of region r before field k end.
    pub fn end_before(&self, r: usize, k: usize) -> u64
        requires { (r < 8) × (k ≤ 16) }
        ensures { result ≡ end_before self.now r k }
    {
        if k == 0 {
            return 0;
        }
        self.fields[16 * r + (k - 1)].end()
    }

    // Whether region r obeys every rule.
    fn region_ok(&self, r: usize) -> bool
        requires { r < 8 }
        ensures { result ≡ region_ok self.now r }
    {
        let size = self.regions.sizes[r];
        let count = self.regions.fields[r] as usize;
        if !size_ok(size) {
            return false;
        }
        if 16 < count {
            return false;
        }
        let mut end: u64 = 0;
        for k in 0..count {
            let f = self.fields[16 * r + k];
            if !field_follows(self.regions.count, size, end, f) {
                return false;
            }
            end = f.end();
        }
        true
    }

    // Whether the policy obeys every rule.
    pub fn well_formed(&self) -> bool
        ensures { result ≡ policy_ok self.now }
    {
        let regions = self.regions.count as usize;
        if 8 < regions {
            return false;
        }
        for r in 0..regions {
            if !self.region_ok(r) {
                return false;
            }
        }
        true
    }
}
