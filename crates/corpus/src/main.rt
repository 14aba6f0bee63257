// Holds the answers to bundles against those of an independent implementation, those that document
// 01 gives, and those of the examples. Standard input has a record for each bundle
// (crates/bundles/src/record.rt). Prints each bundle that is answered otherwise, then counts.
#![tactic(auto)]

use bundles::{Answers, check_bundles};
use passes::Answer;
use v8::Edition;

// A bundle is answered as it stands.
#[derive(Clone, Copy)]
struct AsItStands;

impl Answers for AsItStands {
    fn answer(&self, edition: Edition, bytes: &mut [u8]) -> Answer {
        bundle::answer(edition, bytes)
    }
}

fn main() {
    check_bundles(AsItStands)
}
