// Bundles in records on standard input, each answered and held against an expected answer.
#![tactic(auto)]

// One record.
mod record;

use crate::record::judge_next;
use passes::Answer;
use records::judging::judge_all;
use records::reading::Records;
use v8::Edition;

// The most bundles that are read.
const MOST_BUNDLES: usize = 100000;

// What answers a bundle, as it stands or once its missing rows are found.
pub trait Answers: Drop {
    fn answer(&self, edition: Edition, bytes: &mut [u8]) -> Answer;
}

// Has each bundle answered, and prints which answers are wrong and how many. Bad data ends the run, and
// counts as wrong.
pub fn check_bundles<A: Answers>(answers: A) {
    let verdicts = Records::new(|| judge_next(&answers)).map(|verdict| verdict?);
    judge_all(MOST_BUNDLES, verdicts).print(b"bundles");
}
