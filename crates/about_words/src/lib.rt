// What the refusal of a word is about: its own conditions, its edges and the rows along them. All is found by
// the functions that the check itself calls.
#![tactic(auto)]

ghost use Rattle.std.specs.Prelude.{◌≡◌};
ghost use Rattle.flow_code.specs.Readings.{reading_at};

use policy::Policy;
use v8::Reading;
use v8::numbers::{MOST_WORDS, NOT_READ};

// A routine of so many words: its policy, its rows and its result entry, and how its words are read.
#[derive(Clone, Copy)]
pub struct Routine<'a> {
    pub policy: &'a Policy,
    pub rows: &'a [u8],
    pub res: &'a [u8],
    pub words: usize,
    pub readings: &'a [Reading; MOST_WORDS],
}

impl Routine<'_> {
    // What the word at an index is read as; what no word stands at is not read.
    fn reading_at(&self, at: usize) -> Reading
        ensures { result ≡ reading_at self.now.readings.now at }
    {
        let readings = self.readings;
        readings
            .get(at)
            .copied()
            .unwrap_or(Reading::Unread(NOT_READ))
    }
}

// The rows of words, and what does not fit them.
mod arriving;
// A row along an edge.
mod along;
// An edge of a word, and where it ends.
mod edges;
// What the flow pass refuses.
mod flowing;
// What the last pass refuses at a word.
mod looking;
// The refusal of a word, by its number.
mod words;
