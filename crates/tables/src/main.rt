// Holds the listing of kinds against listings of an independent implementation, and against listings
// that are made for one rule each. Standard input has a record for each case. Prints each case that is
// wrong, then counts.
#![tactic(auto)]

mod judge;
mod record;

use crate::judge::judge;
use records::judging::judge_all;
use records::reading::{Records, read_numbers};

// The most cases that are read.
const MOST_CASES: usize = 100000;

fn main() {
    let verdicts = Records::new(read_numbers).map(|record| judge(&record?));
    judge_all(MOST_CASES, verdicts).print(b"cases");
}
