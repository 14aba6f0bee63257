// Holds the machine against runs of an independent implementation, with policies, memory, unset
// registers, faults and refusals, and against runs made from one of them, each for one rule. Standard
// input has a record for each run. Prints each run that is wrong, then counts.
#![tactic(auto)]

mod judge;
mod record;
mod start;

use crate::judge::judge;
use records::judging::judge_all;
use records::reading::{Records, read_numbers};

// The most runs that are read.
const MOST_RUNS: usize = 100000;

fn main() {
    let verdicts = Records::new(read_numbers).map(|record| judge(&record?));
    judge_all(MOST_RUNS, verdicts).print(b"runs");
}
