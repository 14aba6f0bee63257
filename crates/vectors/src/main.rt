// Holds the machine against runs of an outside emulator, read from standard input a case to a
// line. Prints each case that is wrong, then counts.
#![tactic(auto)]

mod case;
mod judge;

use crate::case::{LINE, Line};
use crate::judge::{Fault, judge};
use output::STDIN_FILENO;
use records::judging::judge_all;
use std::iter;

// The most cases that are read.
const MOST_CASES: usize = 1000000;

// The next line of standard input, if there is one.
fn next_line() -> Option<Result<Line, Fault>> {
    let mut line = [0; LINE];
    match io::read_full(STDIN_FILENO, &mut line) {
        0 => None,
        LINE => Some(Ok(line)),
        _ => Some(Err(Fault::Malformed)),
    }
}

fn main() {
    let verdicts = iter::from_fn(next_line).map(|line| judge(&line?));
    judge_all(MOST_CASES, verdicts).print(b"cases");
}
