// Whether the host has laid regions, return address, frame and memory as document 01 says, and
// document 02, request 7 (specs/Placement.antt).
#![tactic(auto)]

ghost use Rattle.std.specs.Prelude.{◌≡◌, ◌≤◌, length};
ghost use Rattle.machine_place.specs.Placement.{base_placed, apart_from, apart_from_all, laid_in};
ghost use Rattle.machine_place.specs.Placement.{frame_placed, placed_in};

use memory::frame::FRAME_BYTES;
use memory::part_start;
use policy::{Policy, Regions};

// Whether a base is a nonzero multiple of 8 from which as many bytes end below 2^32.
fn base_ok(base: u32, size: u16) -> bool
    ensures { result ≡ base_placed base size }
{
    let top = base as u64 + size as u64;
    (1 <= base) & (base % 8 == 0) & (top < 4294967296)
}

// Whether bytes at a base share none with those at another.
fn apart(base: u32, size: u16, other: u32, extent: u16) -> bool
    ensures { result ≡ apart_from base size other extent }
{
    let top = base as u64 + size as u64;
    let other_top = other as u64 + extent as u64;
    (top <= other as u64) | (other_top <= base as u64)
}

// Whether bytes at a base share none with the first n regions.
#[tactic(auto, using(v8::proofs::Search::all_none, v8::proofs::Search::all_more))]
fn apart_from_all(regions: &Regions, bases: &[u32], base: u32, size: u16, n: usize) -> bool
    requires { (n ≤ 8) × (n ≤ length bases.now) }
    ensures { result ≡ apart_from_all regions.now.sizes bases.now base size n }
{
    for i in 0..n {
        if !apart(base, size, bases[i], regions.sizes[i]) {
            return false;
        }
    }
    true
}

// Whether every one of the first n regions has a right base and shares no byte with a lower one.
fn all_laid(regions: &Regions, bases: &[u32], n: usize) -> bool
    requires { (n ≤ 8) × (n ≤ length bases.now) }
    ensures { result ≡ laid_in regions.now.sizes bases.now n }
{
    for i in 0..n {
        if !base_ok(bases[i], regions.sizes[i]) {
            return false;
        }
        if !apart_from_all(regions, bases, bases[i], regions.sizes[i], i) {
            return false;
        }
    }
    true
}

// Whether the frame has a right base and shares no byte with the first n regions.
fn frame_ok(regions: &Regions, bases: &[u32], frame: u32, n: usize) -> bool
    requires { (n ≤ 8) × (n ≤ length bases.now) }
    ensures { result ≡ frame_placed regions.now.sizes bases.now frame n }
{
    let size = FRAME_BYTES as u16;
    base_ok(frame, size) & apart_from_all(regions, bases, frame, size, n)
}

// Whether regions, return address, frame and memory are laid right: one base for each region, every
// region and the frame laid right, the return address a multiple of 4, memory as long as all sizes
// together and the frame.
pub fn placed(policy: &Policy, bases: &[u32], returns: u32, frame: u32, memory: &[u8]) -> bool
    requires { policy.now.regions.count ≤ 8 }
    ensures { result
        ≡ placed_in policy.now.regions.count policy.now.regions.sizes bases.now returns frame memory.now }
{
    let regions = &policy.regions;
    let count = regions.count as usize;
    if bases.len() != count {
        return false;
    }
    let laid = all_laid(regions, bases, count);
    let framed = frame_ok(regions, bases, frame, count);
    let long = part_start(&regions.sizes, regions.count) + FRAME_BYTES;
    (returns % 4 == 0) & laid & framed & (memory.len() == long)
}
