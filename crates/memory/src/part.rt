// Loads and stores in a region's part of the lent memory: `size` bytes from `start` on.
// The part is lent on to the big-endian routines; the equations speak of the whole memory.
ghost use Rattle.std.specs.Prelude.{◌≡◌, ◌+◌, ◌≤◌, length};
ghost use Rattle.memory.specs.Memory.{load_width, load_of, store_width, store_of};

use crate::big_endian::{load, store};
use v8::{ByteOffset, LoadOp, StoreOp};

// What a load at an offset of the part puts into the register.
pub fn load_in(memory: &[u8], start: usize, size: usize, op: LoadOp, at: ByteOffset) -> u32
    requires { (at.0 + load_width op ≤ size) × (start + size ≤ length memory.now) }
    ensures { result ≡ load_of op memory.now (start + at.0) }
{
    let offset = at.0 as usize;
    let end = start + size;
    load(op, &memory[start..end], offset)
}

// Stores the low bytes of a value at an offset of the part; the rest of the memory stays.
#[tactic(auto, using(crate::proofs::Parts::store_in_part))]
pub fn store_in(memory: &mut [u8], start: usize, size: usize, op: StoreOp, at: ByteOffset, v: u32)
    requires { (at.0 + store_width op ≤ size) × (start + size ≤ length memory.old) }
    ensures { memory.new ≡ store_of op v (start + at.0) memory.old }
{
    let offset = at.0 as usize;
    let end = start + size;
    store(op, &mut memory[start..end], offset, v);
}
