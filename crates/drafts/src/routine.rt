// A routine whose rows are looked for.
ghost use Rattle.std.specs.Prelude.{◌<◌, ◌≤◌};
ghost use Rattle.v8.specs.Numbers.{most_words};

use crate::TABLE_ENTRIES;
use policy::Policy;
use rows::{Entry, Row};
use v8::Reading;
use v8::numbers::{MOST_WORDS, NOT_READ};

// What its words are read as, how many there are, which the check examines and which have a row that is
// given; what the entry row and the result entry say; and how often each entry may grow, if that is limited.
#[derive(Clone, Copy)]
pub struct Routine<'a> {
    pub policy: &'a Policy,
    pub readings: &'a [Reading; MOST_WORDS],
    pub count: usize,
    pub examined: &'a [bool; MOST_WORDS],
    pub given: &'a [bool; MOST_WORDS],
    pub limits: &'a [Option<u8>; TABLE_ENTRIES],
    pub entry: Row,
    pub res: Entry,
    ghost few: { count ≤ most_words },
}

impl Routine<'_> {
    // What the word after the one at an index is read as, its slot if that is a transfer; after the last
    // none is.
    pub fn slot_of(&self, at: usize) -> Reading
        requires { at < most_words }
    {
        if at + 1 < MOST_WORDS {
            return self.readings[at + 1];
        }
        Reading::Unread(NOT_READ)
    }
}
