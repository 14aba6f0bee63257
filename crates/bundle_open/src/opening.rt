// A bundle opened: its refusal or that of an add, or its policy, its words and where its other parts
// stand (specs/Open.antt).
ghost use Rattle.std.specs.Prelude.{◌≡◌, ◌≤◌, length};
ghost use Rattle.bundle_layout.specs.Layout.{most_bytes, most_given, wide_most, length_given};
ghost use Rattle.bundle_open.specs.Open.{words_held, closed, opened_with, opened_of, Inside};

use crate::Opened;
use crate::building::built_of;
use bundle_layout::{MOST_GIVEN, WORD_BYTES, bundle_ok, entry_place, rows_bytes, word_count};
use memory::word_at;
use policy::Policy;
use rows::geometry::ENTRY_BYTES;
use v8::numbers::{ACCEPTED, BAD_BUNDLE};

// The words that stand from a place on, `count` of them, and zeros after them.
fn words_from(bytes: &[u8], at: usize, count: usize) -> [u32; MOST_GIVEN]
    requires { (at ≤ wide_most) × (count ≤ most_given) }
    ensures { result ≡ words_held bytes.now at count }
{
    let mut words = [0u32; MOST_GIVEN];
    for i in 0..count {
        words[i] = word_at(bytes, at + WORD_BYTES * i);
    }
    words
}

// A refusal: all but its number is empty.
fn closed(number: u8) -> Opened
    ensures { result ≡ closed number }
{
    Opened {
        number,
        policy: Policy::empty(),
        count: 0,
        words: [0; MOST_GIVEN],
        entry: 0,
        result: 0,
        code: 0,
        rows: 0,
        end: 0,
    }
}

// What stands in a bundle, with its policy.
fn opened_with(bytes: &[u8], policy: Policy) -> Opened
    requires { (length bytes.now ≡ length_given bytes.now) × (length bytes.now ≤ most_bytes bytes.now) }
    ensures { result ≡ opened_with bytes.now policy }
{
    let count = word_count(bytes);
    let entry = entry_place(bytes);
    let result = entry + rows_bytes(bytes, 1);
    let code = result + ENTRY_BYTES;
    let rows = code + WORD_BYTES * count;
    let end = rows + rows_bytes(bytes, count);
    Opened {
        number: ACCEPTED,
        policy,
        count,
        words: words_from(bytes, code, count),
        entry,
        result,
        code,
        rows,
        end,
    }
}

// Opens a bundle. Any bytes have an answer: where they are refused, all but the number is empty.
pub fn open(bytes: &[u8]) -> Opened
    ensures opened { result ≡ opened_of bytes.now }
    ensures places { Inside result (length bytes.now) }
{
    if !bundle_ok(bytes) {
        return closed(BAD_BUNDLE);
    }
    let built = built_of(bytes);
    if built.number != ACCEPTED {
        return closed(built.number);
    }
    opened_with(bytes, built.policy)
}
