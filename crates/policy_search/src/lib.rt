// The search for the field of a region that holds some bytes (document 02, request 3; specs/Find.antt).
#![tactic(auto)]

ghost use Rattle.std.specs.Prelude.{◌≡◌, ◌+◌, ◌-◌, ◌≤◌, ◌<◌};
ghost use Rattle.policy_search.specs.Find.{search_in, search_of};

use policy::Policy;
use v8::ByteOffset;
use v8::numbers::{ACCEPTED, BAD_POLICY};

// What a search gives: the place of the field, if one holds the bytes, and how many fields were looked at.
#[derive(Clone, Copy)]
pub struct Search {
    pub found: Option<usize>,
    pub looked: usize,
}

// What a search in a policy handed in gives: 0 and what the search gives; or the number of the refusal,
// with nothing found and no field looked at. The number's type is to follow.
#[derive(Clone, Copy)]
pub struct FieldSearch {
    pub number: u8,
    pub found: Option<usize>,
    pub looked: usize,
}

// How many places there are from the first up to and with another.
fn up_to(first: usize, place: usize) -> usize
    requires { (first ≤ place) × (place < 128) }
    ensures { result ≡ place + 1 - first }
{
    place + 1 - first
}

// The field of a region that holds the bytes from low up to end, which is not among them, and how many
// fields were looked at; nothing and 0 if there is no such region. The search ends at the first field
// that holds the bytes or begins past the lowest of them.
pub fn find_in(policy: &Policy, region: u8, low: ByteOffset, end: ByteOffset) -> Search
    ensures { result ≡ search_in policy.now.regions.fields policy.now.fields region low.0 end.0 }
{
    if 8 <= region {
        return Search {
            found: None,
            looked: 0,
        };
    }
    let r = region as usize;
    let first = 16 * r;
    let stop = first + policy.regions.fields[r].min(16) as usize;
    for place in first..stop {
        let f = policy.fields[place];
        if low.0 < f.offset.0 {
            return Search {
                found: None,
                looked: up_to(first, place),
            };
        }
        if end.0 as u64 <= f.end() {
            return Search {
                found: Some(place),
                looked: up_to(first, place),
            };
        }
    }
    let looked = stop - first;
    Search {
        found: None,
        looked,
    }
}

// The lowest field of a region that holds the bytes from low up to end, which is not among them, and
// how many fields were looked at. Refused: 20 if the policy breaks a rule or has no such region.
pub fn find_field(policy: &Policy, region: u8, low: ByteOffset, end: ByteOffset) -> FieldSearch
    ensures { result ≡ search_of policy.now region low.0 end.0 }
{
    if policy.well_formed() & (region < policy.regions.count) {
        let search = find_in(policy, region, low, end);
        return FieldSearch {
            number: ACCEPTED,
            found: search.found,
            looked: search.looked,
        };
    }
    FieldSearch {
        number: BAD_POLICY,
        found: None,
        looked: 0,
    }
}
