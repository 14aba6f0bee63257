// The things of the input judged one after another, and what is printed of them.
ghost use Rattle.std.specs.Prelude.{◌≤◌};

use output::{print, print_number};

// What is wrong with a thing that is judged.
pub trait Wrong: Drop {
    // Says so, with the thing's number.
    fn print(&self, number: u64);
}

// How many things were judged, and how many of them are wrong.
#[derive(Clone, Copy)]
pub struct Totals {
    pub judged: u64,
    pub wrong: u64,
}

impl Totals {
    // Prints both numbers, with what the things are called.
    pub fn print(&self, things: &[u8]) {
        print_number(self.judged);
        print(b" ");
        print(things);
        print(b", ");
        print_number(self.wrong);
        print(b" wrong\n");
    }
}

// Prints each thing that is wrong, and answers how many there are, of at most so many. No more are wrong
// than are judged.
pub fn judge_all<W: Wrong, I: Iterator<Item = Result<(), W>>>(most: usize, verdicts: I) -> Totals
    requires { I.can_next verdicts }
    ensures judged { result.judged ≤ most }
    ensures wrong { result.wrong ≤ result.judged }
{
    let mut totals = Totals {
        judged: 0,
        wrong: 0,
    };
    for verdict in verdicts.take(most) {
        totals.judged += 1;
        if let Err(wrong) = verdict {
            totals.wrong += 1;
            wrong.print(totals.judged);
        }
    }
    totals
}
