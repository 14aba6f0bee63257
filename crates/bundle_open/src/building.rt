// The bundle's policy, as the operations of document 01 build it: all regions are added, then the
// fields of each; the first refusal stays (specs/Build.antt). Each policy on the way obeys the rules, so
// the adds need not test it.
ghost use Rattle.std.specs.Prelude.{◌≡◌, ◌≤◌, ◌<◌};
ghost use Rattle.policy.specs.Laws.{Sound};
ghost use Rattle.bundle_layout.specs.Layout.{region_count, region_size, field_count, field_read};
ghost use Rattle.bundle_open.specs.Build.{region_to, field_to, with_regions, with_fields_of, built_of};

use bundle_layout::{
    HEAD_BYTES, REGION_BYTES, field_count, field_place, fields_before, region_count,
};
use memory::{byte_at, half_at, word_at};
use policy::{Built, Field, Policy};
use v8::ByteOffset;
use v8::numbers::ACCEPTED;
use v8::signed::excess;

// The size of a region.
pub fn region_size(bytes: &[u8], region: usize) -> u16
    requires { region < 256 }
    ensures { result ≡ region_size bytes.now region }
{
    half_at(bytes, HEAD_BYTES + REGION_BYTES * region)
}

// Field i of all.
pub fn field_read(bytes: &[u8], i: usize) -> Field
    requires { i ≤ 65025 }
    ensures { result ≡ field_read bytes.now i }
{
    let at = field_place(bytes, i);
    Field {
        element: byte_at(bytes, at),
        permission: byte_at(bytes, at + 1),
        target: byte_at(bytes, at + 2),
        offset: ByteOffset(half_at(bytes, at + 4) as u32),
        count: half_at(bytes, at + 6),
        lo: excess(word_at(bytes, at + 8)),
        hi: excess(word_at(bytes, at + 12)),
    }
}

// One region more, unless an earlier add was refused.
fn region_to(built: Built, size: u16) -> Built
    requires { Sound built.policy }
    ensures { result ≡ region_to built size }
{
    if built.number == ACCEPTED {
        return built.policy.push_region(size);
    }
    built
}

// One field more in a region, unless an earlier add was refused.
fn field_to(built: Built, region: u8, f: Field) -> Built
    requires { Sound built.policy }
    ensures { result ≡ field_to built region f }
{
    if built.number == ACCEPTED {
        return built.policy.push_field(region, f);
    }
    built
}

// What the adds of all regions give.
fn with_regions(bytes: &[u8]) -> Built
    ensures { result ≡ with_regions bytes.now (region_count bytes.now) }
{
    let count = region_count(bytes);
    let mut built = Built {
        policy: Policy::empty(),
        number: ACCEPTED,
    };
    for i in 0..count {
        built = region_to(built, region_size(bytes, i));
    }
    built
}

// What the adds of a region's fields give, after others.
fn with_fields_of(bytes: &[u8], region: usize, mut built: Built) -> Built
    requires { (region < 255) × Sound built.policy }
    ensures { result ≡ with_fields_of bytes.now region built (field_count bytes.now region) }
{
    let first = fields_before(bytes, region);
    let count = field_count(bytes, region);
    for i in 0..count {
        built = field_to(built, region as u8, field_read(bytes, first + i));
    }
    built
}

// The bundle's policy, or the first refusal of an add.
pub fn built_of(bytes: &[u8]) -> Built
    ensures { result ≡ built_of bytes.now }
{
    let count = region_count(bytes);
    let mut built = with_regions(bytes);
    for r in 0..count {
        built = with_fields_of(bytes, r, built);
    }
    built
}
