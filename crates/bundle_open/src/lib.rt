// A bundle opened: its policy as the adds build it, its words, and where its other parts stand.
// (Document 01, "Bundle".)
#![tactic(auto)]

use bundle_layout::MOST_GIVEN;
use policy::Policy;

// The bundle's policy.
pub mod building;
// The bundle, opened.
mod opening;

pub use opening::open;

// A bundle, opened: 0 and its policy, how many words it has and the words, with zeros after them, and
// the places in its bytes where the entry row, the result entry, the words and the rows begin and the
// rows end; or the number of the refusal, and all else is empty. The number with values beside it is to
// follow.
#[derive(Clone, Copy)]
pub struct Opened {
    pub number: u8,
    pub policy: Policy,
    pub count: usize,
    pub words: [u32; MOST_GIVEN],
    pub entry: usize,
    pub result: usize,
    pub code: usize,
    pub rows: usize,
    pub end: usize,
}
