// Where an access lies: the region that its address is in, and there the field that serves it; or the
// scratch word of the frame.
ghost use Rattle.std.specs.Prelude.{◌≡◌, ◌≤◌, ◌<◌, length, get_or, IfSome, IfNone};
ghost use Rattle.access.specs.Layout.{layout_of};
ghost use Rattle.access.specs.Locate.{Near, region_in, locate_in, in_frame, locate};

use crate::Located;
use crate::serve::{allowed, is_word, serves_element, width_of};
use memory::extent;
use memory::frame::{is_scratch, scratch_at};
use policy::{Policy, Regions};
use policy_search::find_in;
use v8::{Access, ByteOffset};

// The region that an address lies in, if it lies in one.
fn region_at(regions: &Regions, bases: &[u32], address: u32) -> Option<u8>
    requires { (regions.now.count ≤ 8) × (regions.now.count ≤ length bases.now) }
    ensures found { IfSome result
        (λ r. (r ≡ region_in regions.now.count regions.now.sizes bases.now address) × (r < regions.now.count) × Near (get_or bases.now r 0) address) }
    ensures none { IfNone result
        (region_in regions.now.count regions.now.sizes bases.now address ≡ regions.now.count) }
{
    for r in 0..regions.count {
        let i = r as usize;
        let base = bases[i] as u64;
        let top = base + extent(regions.sizes[i]) as u64;
        if (base <= address as u64) & ((address as u64) < top) {
            return Some(r);
        }
    }
    None
}

// Where an access to an offset of a region lies.
fn locate_in(policy: &Policy, a: Access, region: u8, offset: ByteOffset) -> Located
    requires { offset.0 ≤ 65535 }
    ensures { result ≡ locate_in policy.now.regions.fields policy.now.fields a region offset.0 }
{
    let end = ByteOffset(offset.0 + width_of(a));
    let search = find_in(policy, region, offset, end);
    let Some(place) = search.found else {
        return Located::Nowhere;
    };
    let f = policy.fields[place];
    if serves_element(a, f.element) & allowed(a, f.permission) {
        return Located::At(region, offset);
    }
    Located::Nowhere
}

// Where an access to an address outside the regions lies: at a scratch word of the frame, or nowhere.
fn in_frame(frame: u32, a: Access, address: u32) -> Located
    ensures { result ≡ in_frame frame a address }
{
    if is_word(a) & (frame <= address) {
        let offset = ByteOffset(address - frame);
        if is_scratch(offset) {
            return Located::Scratch(scratch_at(offset));
        }
    }
    Located::Nowhere
}

// Where an access to an address lies. A region that the address lies in is found first, and there the
// field; else the frame is looked at.
pub fn locate_access(policy: &Policy, bases: &[u32], frame: u32, a: Access, address: u32) -> Located
    requires { (policy.now.regions.count ≤ 8) × (policy.now.regions.count ≤ length bases.now) }
    ensures { result ≡ locate (layout_of policy.now bases.now frame) a address }
{
    match region_at(&policy.regions, bases, address) {
        Some(r) => {
            let offset = ByteOffset(address - bases[r as usize]);
            locate_in(policy, a, r, offset)
        }
        None => in_frame(frame, a, address),
    }
}
