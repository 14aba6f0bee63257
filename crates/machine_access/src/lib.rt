// An access to the place where it lies: what a step asks of the lent memory.
#![tactic(auto)]

ghost use Rattle.std.specs.Prelude.{◌≡◌, ◌+◌, ◌≤◌, length};
ghost use Rattle.memory.specs.Place.{part_start, scratch_place};
ghost use Rattle.access.specs.Serve.{access_width};
ghost use Rattle.access.specs.Layout.{layout_of};
ghost use Rattle.step.specs.Effect.{done, touching, scratch_access, access_to};
ghost use Rattle.step.specs.Lent.{core_of};
ghost use Rattle.machine_access.specs.Covered.{Covered, Framed, Covers};
ghost use Rattle.machine_access.specs.Moved.{Moves};

use access::{Located, locate_access};
use memory::frame::{FRAME_BYTES, scratch_offset};
use memory::{extent, load_in, part_start, store_in};
use policy::{Policy, Regions};
use step::Registers;
use v8::numbers::{NO_FIELD, UNSET_READ};
use v8::{Access, ByteOffset};

// What an access came to: it was done, or the fault that it met.
#[derive(Clone, Copy)]
pub enum Moved {
    Done,
    Missed(u8),
}

// Does an access at an offset of a part of the lent memory, `size` bytes from `start` on: a load writes
// its register, a store that part.
fn access_in(
    registers: &mut Registers,
    memory: &mut [u8],
    start: usize,
    size: usize,
    a: Access,
    rd: u8,
    offset: ByteOffset,
)
    requires { (offset.0 + access_width a ≤ size) × (start + size ≤ length memory.old) }
    ensures { done (core_of registers.new memory.new)
        ≡ touching (core_of registers.old memory.old) a rd (start + offset.0) }
{
    match a {
        Access::Loads(op) => {
            let v = load_in(memory, start, size, op, offset);
            registers.write(rd, v);
        }
        Access::Stores(op) => {
            store_in(memory, start, size, op, offset, registers.value(rd));
        }
    }
}

// Does an access at an offset of a region, in that region's part of the lent memory.
fn access_at(
    regions: &Regions,
    registers: &mut Registers,
    memory: &mut [u8],
    a: Access,
    rd: u8,
    region: u8,
    offset: ByteOffset,
)
    requires { Covered regions.now.sizes (length memory.old) (access_width a) region offset.0 }
    ensures { done (core_of registers.new memory.new)
        ≡ touching (core_of registers.old memory.old)
        a rd (part_start regions.now.sizes region + offset.0) }
{
    let i = region as usize;
    let size = extent(regions.sizes[i]);
    let start = part_start(&regions.sizes, region);
    access_in(registers, memory, start, size, a, rd, offset);
}

// Does an access to scratch word k, in the frame's part of the lent memory, after those of the regions:
// a load of one that is unset meets 102, a store sets it.
fn scratch_access(
    regions: &Regions,
    registers: &mut Registers,
    memory: &mut [u8],
    a: Access,
    rd: u8,
    k: u8,
) -> Moved
    requires { Framed regions.now.sizes regions.now.count (length memory.old) (access_width a) k }
    ensures { Moves result (core_of registers.new memory.new) (core_of registers.old memory.old)
        (scratch_access (core_of registers.old memory.old)
        a rd k (scratch_place regions.now.sizes regions.now.count k)) }
{
    match a {
        Access::Loads(_) => {
            if !registers.scratch_is_set(k) {
                return Moved::Missed(UNSET_READ);
            }
        }
        Access::Stores(_) => {
            registers.set_scratch(k);
        }
    }
    let start = part_start(&regions.sizes, regions.count);
    let offset = scratch_offset(k);
    access_in(registers, memory, start, FRAME_BYTES, a, rd, offset);
    Moved::Done
}

// Does an access to an address, where it lies: 103 where that is nowhere.
pub fn access_to(
    policy: &Policy,
    bases: &[u32],
    frame: u32,
    registers: &mut Registers,
    memory: &mut [u8],
    a: Access,
    rd: u8,
    address: u32,
) -> Moved
    requires { (policy.now.regions.count ≤ 8) × (policy.now.regions.count ≤ length bases.now)
        × Covers (layout_of policy.now bases.now frame) (length memory.old) }
    ensures { Moves result (core_of registers.new memory.new) (core_of registers.old memory.old)
        (access_to (layout_of policy.now bases.now frame) (core_of registers.old memory.old)
        a rd address) }
{
    let regions = &policy.regions;
    match locate_access(policy, bases, frame, a, address) {
        Located::At(region, offset) => {
            access_at(regions, registers, memory, a, rd, region, offset);
            Moved::Done
        }
        Located::Scratch(k) => scratch_access(regions, registers, memory, a, rd, k),
        Located::Nowhere => Moved::Missed(NO_FIELD),
    }
}
