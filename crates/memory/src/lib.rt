// The lent memory: big-endian loads and stores, in a slice of bytes or in a region's part of it.
// Everything above rests on the definitions and laws in specs/, never on the code here. (V8,
// appendix B, load and store integer instructions; document 01, the machine's run.)
#![tactic(auto)]

// Numbers in a slice of bytes.
mod reading;
// Loads and stores in a slice of bytes.
mod big_endian;
// The frame and its scratch words.
pub mod frame;
// Where a region's part begins.
mod place;
// Loads and stores in a region's part, lent on.
mod part;

pub use big_endian::load;
pub use part::{load_in, store_in};
pub use place::{extent, part_start};
pub use reading::{byte_at, half_at, word_at, word_within};
