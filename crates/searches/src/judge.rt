// The searches of a list made again, and compared with those that are expected.
use crate::record::{NUMBER, Search, fits, policy_of, region_of, searches_of};
use output::print_wrong;
use policy::Policy;
use policy_search::find_field;
use records::judging::Wrong;
use records::reading::{BadRecord, Numbers};
use v8::ByteOffset;

// What is wrong with a list.
#[derive(Clone, Copy)]
pub enum Fault {
    // The record is no list.
    Malformed,
    OtherNumber,
    OtherField,
    OtherCount,
}

impl From<BadRecord> for Fault {
    fn from(_bad: BadRecord) -> Fault {
        Fault::Malformed
    }
}

impl Wrong for Fault {
    fn print(&self, list: u64) {
        let text: &[u8] = match self {
            Fault::Malformed => b"not a list",
            Fault::OtherNumber => b"other number",
            Fault::OtherField => b"other field",
            Fault::OtherCount => b"other count",
        };
        print_wrong(b"list", list, text);
    }
}

// The place of the field that a search in a region is to find: none for 0, else `expected` is 1 more
// than the field's number there.
fn expected_place(region: u8, expected: u32) -> Option<usize> {
    let number = expected.checked_sub(1)?;
    Some(16 * usize::from(region) + number as usize)
}

// Makes a search again, and compares what it gives.
fn judge_search(numbers: &Numbers, policy: &Policy, search: Search) -> Result<(), Fault> {
    let [low, end, expected, looked] = search;
    let region = region_of(numbers);
    let given = find_field(policy, region, ByteOffset(low), ByteOffset(end));
    if u32::from(given.number) != numbers[NUMBER] {
        return Err(Fault::OtherNumber);
    }
    if given.found != expected_place(region, expected) {
        return Err(Fault::OtherField);
    }
    if given.looked != looked as usize {
        return Err(Fault::OtherCount);
    }
    Ok(())
}

// Makes each search of a list again, and says what the first shows that gives something else.
pub fn judge(numbers: &Numbers) -> Result<(), Fault> {
    if !fits(numbers) {
        return Err(Fault::Malformed);
    }
    let policy = policy_of(numbers);
    for &search in searches_of(numbers) {
        judge_search(numbers, &policy, search)?;
    }
    Ok(())
}
