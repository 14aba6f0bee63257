// One record: how many numbers it has, the numbers of 32 bits, big-endian, and then bytes.
//   0   the edition, 8 or 9          11  the sizes of 8 regions
//   1   the number of the end        19  how many fields each of 8 regions has
//   2   the steps run                27  8 bases
//   3   the allowance                35  the state before
//   4   the return address           69  the state after
//   5   how many regions            103  the frame address
//   6   how many words              104  the words, and then the fields
//   7   how many bases
//   8   how many fields
//   9   the length of memory
//   10  1 if memory is changed
// A state is 34 numbers: 32 registers, their marks (bit r is that of register r), and the codes NZVC,
// 16 more if they are set, with the marks of scratch words (bit 5 + k is that of word k). A field is 4
// numbers, as crates/records reads them. The bytes are memory before, and memory after if it is changed.
ghost use Rattle.std.specs.Prelude.{◌≤◌};

use records::reading::{BadRecord, Numbers, count_of, read_bytes};

pub const EDITION: usize = 0;

pub const END: usize = 1;

pub const STEPS: usize = 2;

pub const ALLOWANCE: usize = 3;

pub const RETURNS: usize = 4;

pub const REGIONS: usize = 5;

const WORD_COUNT: usize = 6;

const BASE_COUNT: usize = 7;

const FIELD_COUNT: usize = 8;

const LENGTH: usize = 9;

pub const CHANGED: usize = 10;

pub const SIZES: usize = 11;

pub const BASES: usize = 27;

pub const BEFORE: usize = 35;

pub const AFTER: usize = 69;

pub const FRAME: usize = 103;

pub const WORDS: usize = 104;

// The most words, bases and fields of a record.
const MOST_WORDS: u32 = 131;

const MOST_BASES: u32 = 8;

const MOST_FIELDS: u32 = 128;

// The most bytes of memory: of regions, and the frame.
pub const MOST_BYTES: usize = 2168;

// Some bytes of memory with zeros after them.
pub type Bytes = [u8; MOST_BYTES];

// Where the bases end.
pub fn bases_end(numbers: &Numbers) -> usize
    ensures { (27 ≤ result) × (result ≤ 35) }
{
    BASES + count_of(numbers[BASE_COUNT], MOST_BASES)
}

// Where the words end and the fields begin.
pub fn words_end(numbers: &Numbers) -> usize
    ensures { (104 ≤ result) × (result ≤ 235) }
{
    WORDS + count_of(numbers[WORD_COUNT], MOST_WORDS)
}

// How many fields there are.
pub fn field_count(numbers: &Numbers) -> usize
    ensures { result ≤ 128 }
{
    count_of(numbers[FIELD_COUNT], MOST_FIELDS)
}

// How long memory is.
pub fn memory_length(numbers: &Numbers) -> usize
    ensures { result ≤ 2168 }
{
    count_of(numbers[LENGTH], MOST_BYTES as u32)
}

// Reads the bytes of memory.
pub fn read_memory(numbers: &Numbers) -> Result<Bytes, BadRecord> {
    read_bytes(memory_length(numbers))
}
