// The listing of kinds, as an open call (specs/Listing.antt).
ghost use Rattle.std.specs.Prelude.{◌≡◌, length};
ghost use Rattle.lister.specs.Listing.{listable, listed};

use crate::raising::raise_until_closed;
use flow_code::{examine_all, read_all};
use lister_rules::TABLE_MARKS;
use passes::answers::{accept, refuse};
use passes::{Answer, flow_pass, read_pass};
use passes_shape::start_ok;
use policy::{Policy, Regions};
use v8::numbers::{ACCEPTED, BAD_POLICY, BAD_SHAPE};
use v8::{Edition, WordIndex};

// Whether the words are as many as they may be, the entry row is well formed, and the table is of the
// length of one.
fn listable(regions: &Regions, words: &[u32], entry: &[u8], size: usize) -> bool
    ensures { result ≡ listable regions.now.count regions.now.sizes (length words.now) entry.now size }
{
    start_ok(regions, words, entry) && size == TABLE_MARKS
}

// Lists the kinds of a routine, for a terminal of the edition: for each word the marks of its 32
// registers, in a lent table. A refusal is the check's, and leaves the table as it was.
pub fn list_kinds(
    edition: Edition,
    policy: &Policy,
    words: &[u32],
    entry: &[u8],
    table: &mut [u8],
) -> Answer
    ensures { record { answer = result; table = table.new }
        ≡ listed edition policy.now words.now entry.now table.old }
{
    if !policy.well_formed() {
        return refuse(BAD_POLICY, WordIndex(0), 0);
    }
    if !listable(&policy.regions, words, entry, table.len()) {
        return refuse(BAD_SHAPE, WordIndex(0), 0);
    }
    let count = words.len();
    let readings = read_all(edition, words);
    let read = read_pass(&readings, count);
    if read.number != ACCEPTED {
        return read;
    }
    let examined = examine_all(&readings, count);
    let flows = flow_pass(&readings, count, &examined);
    if flows.number != ACCEPTED {
        return flows;
    }
    table.copy_from_slice(&raise_until_closed(&readings, count, &examined, entry));
    accept()
}
