// The check: the passes in their order (specs/Passes.antt).
ghost use Rattle.std.specs.Prelude.{◌≡◌};
ghost use Rattle.checker.specs.Passes.{check_of};

use crate::looking::word_pass;
use flow_code::{examine_all, read_all};
use passes::answers::refuse;
use passes::{Answer, entry_pass, flow_pass, read_pass, row_pass};
use passes_shape::shape_ok;
use policy::Policy;
use v8::numbers::{ACCEPTED, BAD_POLICY, BAD_SHAPE};
use v8::{Edition, WordIndex};

// Checks a routine, for a terminal of the edition: the first condition that is broken, with the word and
// the register named, or 0 0 0 where none is.
pub fn check(
    edition: Edition,
    policy: &Policy,
    words: &[u32],
    rows: &[u8],
    entry: &[u8],
    res: &[u8],
) -> Answer
    ensures { result ≡ check_of edition policy.now words.now rows.now entry.now res.now }
{
    if !policy.well_formed() {
        return refuse(BAD_POLICY, WordIndex(0), 0);
    }
    if !shape_ok(policy, words, rows, entry, res) {
        return refuse(BAD_SHAPE, WordIndex(0), 0);
    }
    let formed = row_pass(policy, rows, WordIndex(words.len() as u32));
    if formed.number != ACCEPTED {
        return formed;
    }
    let readings = read_all(edition, words);
    let read = read_pass(&readings, words.len());
    if read.number != ACCEPTED {
        return read;
    }
    let marks = examine_all(&readings, words.len());
    let flows = flow_pass(&readings, words.len(), &marks);
    if flows.number != ACCEPTED {
        return flows;
    }
    let entered = entry_pass(rows, entry);
    if entered.number != ACCEPTED {
        return entered;
    }
    word_pass(policy, &readings, words.len(), &marks, rows, res)
}
