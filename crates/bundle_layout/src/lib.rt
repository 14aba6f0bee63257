// Where the parts of a bundle stand, by its version, and whether bytes are a bundle (specs/Layout.antt).
#![tactic(auto)]

ghost use Rattle.std.specs.Prelude.{◌≡◌, ◌*◌, ◌≤◌, ◌<◌};
ghost use Rattle.v8.specs.Search.{all};
ghost use Rattle.bundle_layout.specs.Layout.{narrow, most_bytes, rows_bytes, region_count, word_count, field_count, region_zero, fields_before, field_total, field_place, field_zero, entry_place, length_given, head_ok, bundle_ok};

use memory::{byte_at, half_at};
use rows::geometry::{ENTRY_BYTES, ROW_BYTES};

// No bundle gives more words.
pub const MOST_GIVEN: usize = 133;

// Version 1: how many bytes a row has, and the most that a bundle has.
const NARROW_VERSION: u16 = 1;

pub const NARROW_ROW_BYTES: usize = 392;

const NARROW_MOST: usize = 53180;
// Version 2, whose rows are as the check takes them, and the most bytes that a bundle has.
const WIDE_VERSION: u16 = 2;

const WIDE_MOST: usize = 62468;
// How many bytes the parts take: the head, a region, a field, a word.
pub const HEAD_BYTES: usize = 8;

pub const REGION_BYTES: usize = 4;

pub const FIELD_BYTES: usize = 16;

pub const WORD_BYTES: usize = 4;

// Whether the bundle is of version 1, whose rows have no scratch words.
pub fn is_narrow(bytes: &[u8]) -> bool
    ensures { result ≡ narrow bytes.now }
{
    half_at(bytes, 3) == NARROW_VERSION
}

// The most bytes that a bundle of its version has.
pub fn most_bytes(bytes: &[u8]) -> usize
    ensures { result ≡ most_bytes bytes.now }
{
    if is_narrow(bytes) {
        return NARROW_MOST;
    }
    WIDE_MOST
}

// How many bytes n of its rows take.
pub fn rows_bytes(bytes: &[u8], n: usize) -> usize
    requires { n < 65536 }
    ensures { (result ≡ rows_bytes bytes.now n) × (result ≤ 464 * n) }
{
    if is_narrow(bytes) {
        return NARROW_ROW_BYTES * n;
    }
    ROW_BYTES * n
}

// How many regions there are.
pub fn region_count(bytes: &[u8]) -> usize
    ensures { (result ≡ region_count bytes.now) × (result < 256) }
{
    byte_at(bytes, 5) as usize
}

// How many words there are.
pub fn word_count(bytes: &[u8]) -> usize
    ensures { (result ≡ word_count bytes.now) × (result < 65536) }
{
    half_at(bytes, 6) as usize
}

// How many fields a region has.
pub fn field_count(bytes: &[u8], region: usize) -> usize
    requires { region < 256 }
    ensures { (result ≡ field_count bytes.now region) × (result < 256) }
{
    byte_at(bytes, HEAD_BYTES + REGION_BYTES * region + 2) as usize
}

// Whether the last byte of a region is zero.
pub fn region_zero(bytes: &[u8], region: usize) -> bool
    requires { region < 256 }
    ensures { result ≡ region_zero bytes.now region }
{
    byte_at(bytes, HEAD_BYTES + REGION_BYTES * region + 3) == 0
}

// How many fields the first n regions have together.
pub fn fields_before(bytes: &[u8], n: usize) -> usize
    requires { n < 256 }
    ensures { (result ≡ fields_before bytes.now n) × (result ≤ 255 * n) }
{
    let mut sum = 0;
    for i in 0..n {
        sum += field_count(bytes, i);
    }
    sum
}

// Where field i of all stands; the entry row stands after the last.
pub fn field_place(bytes: &[u8], i: usize) -> usize
    requires { i ≤ 65025 }
    ensures { (result ≡ field_place bytes.now i) × (result < 1048560) }
{
    HEAD_BYTES + REGION_BYTES * region_count(bytes) + FIELD_BYTES * i
}

// Whether the fourth byte of field i is zero.
pub fn field_zero(bytes: &[u8], i: usize) -> bool
    requires { i ≤ 65025 }
    ensures { result ≡ field_zero bytes.now i }
{
    byte_at(bytes, field_place(bytes, i) + 3) == 0
}

// How many fields there are.
pub fn field_total(bytes: &[u8]) -> usize
    ensures { (result ≡ field_total bytes.now) × (result ≤ 65025) }
{
    fields_before(bytes, region_count(bytes))
}

// Where the entry row stands.
pub fn entry_place(bytes: &[u8]) -> usize
    ensures { (result ≡ entry_place bytes.now) × (result < 1048560) }
{
    field_place(bytes, field_total(bytes))
}

// The length that the counts give.
pub fn length_given(bytes: &[u8]) -> usize
    ensures { result ≡ length_given bytes.now }
{
    let words = word_count(bytes);
    let rows = rows_bytes(bytes, words);
    entry_place(bytes) + rows_bytes(bytes, 1) + ENTRY_BYTES + WORD_BYTES * words + rows
}

// Whether the mark and the version are right.
pub fn head_ok(bytes: &[u8]) -> bool
    ensures { result ≡ head_ok bytes.now }
{
    let version = half_at(bytes, 3);
    let read = (version == NARROW_VERSION) | (version == WIDE_VERSION);
    bytes.starts_with(b"WTR") & read
}

// Whether the zeros of all regions are zero.
fn regions_zero(bytes: &[u8]) -> bool
    ensures { result ≡ all (region_zero bytes.now) (region_count bytes.now) }
{
    (0..region_count(bytes)).all(|i| region_zero(bytes, i))
}

// Whether the zeros of all fields are zero.
fn fields_zero(bytes: &[u8]) -> bool
    ensures { result ≡ all (field_zero bytes.now) (field_total bytes.now) }
{
    (0..field_total(bytes)).all(|i| field_zero(bytes, i))
}

// Whether the bytes are a bundle.
pub fn bundle_ok(bytes: &[u8]) -> bool
    ensures { result ≡ bundle_ok bytes.now }
{
    bytes.len() <= most_bytes(bytes)
        && head_ok(bytes)
        && bytes.len() == length_given(bytes)
        && regions_zero(bytes)
        && fields_zero(bytes)
}
