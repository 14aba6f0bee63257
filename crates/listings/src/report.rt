// A whole listing, judged line by line, and what is printed of it.
ghost use Rattle.listings.specs.Counts.{Grown};

use crate::line::{Shown, judge};
use output::{print, print_number};
use records::judging::judge_all;

// More lines than a listing has.
const MOST_LINES: usize = 65536;

// How many lines showed what.
#[derive(Clone, Copy)]
struct Tally {
    kept: u64,
    newer: u64,
    refused: u64,
    privileged: u64,
}

impl Tally {
    // One line more. Each count grows by at most one. (A closure counts, which no bound of a loop
    // reaches: so the sum saturates.)
    fn count(&mut self, shown: Shown)
        ensures { Grown self.old self.new }
    {
        match shown {
            Shown::Kept => self.kept = self.kept.saturating_add(1),
            Shown::KeptByNewer => self.newer = self.newer.saturating_add(1),
            Shown::Refused => self.refused = self.refused.saturating_add(1),
            Shown::Privileged => self.privileged = self.privileged.saturating_add(1),
        }
    }
}

fn print_count(n: u64, text: &[u8]) {
    print_number(n);
    print(text);
}

// Judges each line, and prints what is wrong and how many lines showed what.
pub fn check_lines(s: &[u8]) {
    let mut tally = Tally {
        kept: 0,
        newer: 0,
        refused: 0,
        privileged: 0,
    };
    let lines = s.split_inclusive(|b| *b == b'\n');
    let verdicts = lines.map(|line| {
        judge(line.strip_suffix(b"\n").unwrap_or(line)).map(|shown| tally.count(shown))
    });
    let totals = judge_all(MOST_LINES, verdicts);
    print_count(totals.judged, b" words: ");
    print_count(tally.kept, b" read and written back, ");
    print_count(tally.newer, b" on the newer terminal alone, ");
    print_count(tally.refused, b" not read, ");
    print_count(tally.privileged, b" privileged, ");
    print_count(totals.wrong, b" wrong\n");
}
