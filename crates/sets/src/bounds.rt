// The bounds of 32-bit numbers (specs/Sets.antt).

// 2^32: words and excess forms lie below it.
pub const MODULUS: u64 = 1 << 32;

// The highest excess form.
pub const LAST: u32 = u32::MAX;
