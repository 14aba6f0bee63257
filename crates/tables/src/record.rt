// One record: how many numbers it has, the numbers of 32 bits, big-endian, and then bytes.
//   0  the edition, 8 or 9             7  how many regions
//   1  the number of the answer        8  how many fields
//   2  its word                        9  how many marks follow
//   3  its register                   10  the sizes of 8 regions
//   4  the length of the lent table   18  how many fields each of 8 regions has
//   5  the length of the entry row    26  the words, and then the fields
//   6  how many words
// A field is 4 numbers, as crates/records reads them. The bytes are the entry row, and the marks that an
// accepted listing must have; those after them are 0.
ghost use Rattle.std.specs.Prelude.{◌≤◌};

use policy::Policy;
use records::given::policy_given;
use records::reading::{BadRecord, Numbers, count_of, read_bytes};

pub const EDITION: usize = 0;

pub const NUMBER: usize = 1;

pub const WORD: usize = 2;

pub const REGISTER: usize = 3;

const TABLE_LENGTH: usize = 4;

const ENTRY_LENGTH: usize = 5;

const WORD_COUNT: usize = 6;

const REGIONS: usize = 7;

const FIELD_COUNT: usize = 8;

const MARK_COUNT: usize = 9;

const SIZES: usize = 10;

const WORDS: usize = 26;

// The most words and fields of a record.
const MOST_WORDS: u32 = 200;

const MOST_FIELDS: u32 = 128;

// The most bytes of an entry row, of the marks, and of a lent table.
pub const MOST_BYTES: usize = 4104;

// Where the words end and the fields begin.
fn words_end(numbers: &Numbers) -> usize
    ensures { (26 ≤ result) × (result ≤ 226) }
{
    WORDS + count_of(numbers[WORD_COUNT], MOST_WORDS)
}

// The words.
pub fn words_of(numbers: &Numbers) -> &[u32] {
    &numbers[WORDS..words_end(numbers)]
}

// The policy, as it stands: it may break rules.
pub fn policy_of(numbers: &Numbers) -> Policy {
    let first = words_end(numbers);
    let count = count_of(numbers[FIELD_COUNT], MOST_FIELDS);
    let fields = &numbers[first..first + 4 * count];
    policy_given(numbers[REGIONS], &numbers[SIZES..SIZES + 16], fields)
}

// How long the lent table is.
pub fn table_length(numbers: &Numbers) -> usize
    ensures { result ≤ 4104 }
{
    count_of(numbers[TABLE_LENGTH], MOST_BYTES as u32)
}

// How long the entry row is.
pub fn entry_length(numbers: &Numbers) -> usize
    ensures { result ≤ 4104 }
{
    count_of(numbers[ENTRY_LENGTH], MOST_BYTES as u32)
}

// Reads the entry row, with zeros after it.
pub fn read_entry(numbers: &Numbers) -> Result<[u8; MOST_BYTES], BadRecord> {
    read_bytes(entry_length(numbers))
}

// Reads the marks that are expected, with zeros after them.
pub fn read_marks(numbers: &Numbers) -> Result<[u8; MOST_BYTES], BadRecord> {
    read_bytes(count_of(numbers[MARK_COUNT], MOST_BYTES as u32))
}
