// One record: how many numbers it has, and the numbers of 32 bits, big-endian.
//   0  the number of the answer        4  how many searches
//   1  the region that is searched     5  the sizes of 8 regions
//   2  how many regions               13  how many fields each of 8 regions has
//   3  how many fields                21  the fields, and then the searches
// A field is 4 numbers, as crates/records reads them. A search is 4 numbers: the lowest offset wanted, the
// first one after it that is not wanted, what is found (0 for nothing, else 1 more than the field's number
// in its region), and how many fields are looked at.
ghost use Rattle.std.specs.Prelude.{◌≤◌};

use policy::Policy;
use records::given::policy_given;
use records::reading::{Numbers, count_of};

pub const NUMBER: usize = 0;

const REGION: usize = 1;

const REGIONS: usize = 2;

const FIELD_COUNT: usize = 3;

const SEARCH_COUNT: usize = 4;

const SIZES: usize = 5;

const FIELDS: usize = 21;

// The most fields and searches of a record.
const MOST_FIELDS: u32 = 128;

const MOST_SEARCHES: u32 = 53;

// The numbers of a search.
pub type Search = [u32; 4];

// Whether there is room in a record for as many fields and searches as it says.
pub fn fits(numbers: &Numbers) -> bool {
    numbers[FIELD_COUNT] <= MOST_FIELDS && numbers[SEARCH_COUNT] <= MOST_SEARCHES
}

// The region that is searched.
pub fn region_of(numbers: &Numbers) -> u8 {
    (numbers[REGION] % 256) as u8
}

// How many fields there are.
fn field_count(numbers: &Numbers) -> usize
    ensures { result ≤ 128 }
{
    count_of(numbers[FIELD_COUNT], MOST_FIELDS)
}

// The searches, as many as may be.
pub fn searches_of(numbers: &Numbers) -> &[Search] {
    let first = FIELDS + 4 * field_count(numbers);
    let count = count_of(numbers[SEARCH_COUNT], MOST_SEARCHES);
    numbers[first..first + 4 * count].as_chunks().0
}

// The policy, as it stands: it may break rules.
pub fn policy_of(numbers: &Numbers) -> Policy {
    let fields = &numbers[FIELDS..FIELDS + 4 * field_count(numbers)];
    policy_given(numbers[REGIONS], &numbers[SIZES..SIZES + 16], fields)
}
