// The frame that the host gives a routine, and its six scratch words (specs/Frame.antt).
ghost use Rattle.std.specs.Prelude.{◌≡◌, true, ◌<◌};
ghost use Rattle.memory.specs.Frame.{scratch_count, scratch_offset, is_scratch, scratch_at};

use v8::ByteOffset;

// How many bytes the frame has.
pub const FRAME_BYTES: usize = 120;
// How many scratch words it has.
pub const SCRATCH_WORDS: usize = 6;
// The offset of the first.
pub const SCRATCH_FIRST: u32 = 96;

// Whether an offset of the frame is that of a scratch word.
#[tactic(auto, unfolding(crate::specs::Frame::is_scratch))]
pub fn is_scratch(offset: ByteOffset) -> bool
    ensures { result ≡ is_scratch offset.0 }
{
    (SCRATCH_FIRST <= offset.0) & (offset.0 < FRAME_BYTES as u32) & (offset.0 % 4 == 0)
}

// Which scratch word stands at an offset of the frame.
pub fn scratch_at(offset: ByteOffset) -> u8
    requires { is_scratch offset.0 ≡ true }
    ensures { (result ≡ scratch_at offset.0) × (result < scratch_count) }
{
    ((offset.0 - SCRATCH_FIRST) / 4) as u8
}

// The offset of scratch word k.
pub fn scratch_offset(k: u8) -> ByteOffset
    requires { k < scratch_count }
    ensures { result.0 ≡ scratch_offset k }
{
    ByteOffset(SCRATCH_FIRST + 4 * k as u32)
}
