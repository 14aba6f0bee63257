// Loads and stores in a slice of bytes, big-endian as V8 has them (specs/Memory.antt).
ghost use Rattle.std.specs.Prelude.{◌≡◌, ◌+◌, ◌≤◌, length};
ghost use Rattle.memory.specs.Memory.{load_width, load_of, store_width, store_of};

use crate::reading::{half_within, word_within};
use v8::signed::sign_extend;
use v8::{LoadOp, StoreOp};

// What a load at a place puts into the register.
pub fn load(op: LoadOp, memory: &[u8], at: usize) -> u32
    requires { at + load_width op ≤ length memory.now }
    ensures { result ≡ load_of op memory.now at }
{
    match op {
        LoadOp::Ld => word_within(memory, at),
        LoadOp::Ldub => memory[at] as u32,
        LoadOp::Lduh => half_within(memory, at),
        LoadOp::Ldsb => sign_extend(8, memory[at] as u32),
        LoadOp::Ldsh => sign_extend(16, half_within(memory, at)),
    }
}

// Stores the low bytes of a value at a place; all other bytes stay.
pub fn store(op: StoreOp, part: &mut [u8], at: usize, v: u32)
    requires { at + store_width op ≤ length part.old }
    ensures { part.new ≡ store_of op v at part.old }
{
    match op {
        StoreOp::St => {
            let [first, second, third, fourth] = v.to_be_bytes();
            part[at..at + 4].copy_from_slice(&[first, second, third, fourth]);
        }
        StoreOp::Stb => {
            part[at] = (v % 256) as u8;
        }
        StoreOp::Sth => {
            let [high, low] = ((v % 65536) as u16).to_be_bytes();
            part[at..at + 2].copy_from_slice(&[high, low]);
        }
    }
}
