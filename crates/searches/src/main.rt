// Holds the field search against searches of an independent implementation, and against searches that
// are made for one thing each. Standard input has a record for each list of fields with the searches in
// it. Prints each list that is wrong, then counts.
#![tactic(auto)]

mod judge;
mod record;

use crate::judge::judge;
use crate::record::searches_of;
use output::{print, print_number};
use records::judging::judge_all;
use records::reading::{Records, read_numbers};

// The most lists that are read.
const MOST_LISTS: usize = 100000;

fn main() {
    let mut searches: u64 = 0;
    let verdicts = Records::new(read_numbers).map(|record| {
        let numbers = record?;
        // A closure counts here, which no bound of a loop reaches: so the sum saturates.
        searches = searches.saturating_add(searches_of(&numbers).len() as u64);
        judge(&numbers)
    });
    let totals = judge_all(MOST_LISTS, verdicts);
    print_number(totals.judged);
    print(b" lists, ");
    print_number(searches);
    print(b" searches, ");
    print_number(totals.wrong);
    print(b" wrong\n");
}
