// Numbers in a slice of bytes, big-endian (specs/Memory.antt): at a place that is known to lie in the
// slice, and at any place, where a byte beyond the end reads as 0.
ghost use Rattle.std.specs.Prelude.{◌≡◌, ◌+◌, ◌≤◌, ◌<◌, length};
ghost use Rattle.memory.specs.Memory.{byte_at, half_at, word_at};

// The halfword at a place of the slice.
pub fn half_within(bytes: &[u8], at: usize) -> u32
    requires { at + 2 ≤ length bytes.now }
    ensures { (result ≡ half_at bytes.now at) × (result < 65536) }
{
    u16::from_be_bytes([bytes[at], bytes[at + 1]]) as u32
}

// The word at a place of the slice.
pub fn word_within(bytes: &[u8], at: usize) -> u32
    requires { at + 4 ≤ length bytes.now }
    ensures { result ≡ word_at bytes.now at }
{
    u32::from_be_bytes([bytes[at], bytes[at + 1], bytes[at + 2], bytes[at + 3]])
}

// The byte that stands so many after a place. A place that is too high to be a number is beyond the
// end.
fn byte_after(bytes: &[u8], at: usize, after: usize) -> u8
    ensures { (result ≡ byte_at bytes.now (at + after)) × (result < 256) }
{
    let Some(place) = at.checked_add(after) else {
        return 0;
    };
    bytes.get(place).copied().unwrap_or(0)
}

// The byte at any place.
pub fn byte_at(bytes: &[u8], at: usize) -> u8
    ensures { (result ≡ byte_at bytes.now at) × (result < 256) }
{
    byte_after(bytes, at, 0)
}

// The halfword at any place.
pub fn half_at(bytes: &[u8], at: usize) -> u16
    ensures { (result ≡ half_at bytes.now at) × (result < 65536) }
{
    u16::from_be_bytes([byte_at(bytes, at), byte_after(bytes, at, 1)])
}

// The word at any place.
pub fn word_at(bytes: &[u8], at: usize) -> u32
    ensures { result ≡ word_at bytes.now at }
{
    let first = byte_at(bytes, at);
    let second = byte_after(bytes, at, 1);
    let third = byte_after(bytes, at, 2);
    u32::from_be_bytes([first, second, third, byte_after(bytes, at, 3)])
}
