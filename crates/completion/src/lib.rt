// A bundle completed: the rows that are missing in it are found, in place, and it is answered then. A row
// whose first byte is 0 is missing; the others stay.
#![tactic(auto)]

use bundle_open::open;
use output::{STDIN_FILENO, print, print_line};
use reply::{ROOM, answer_line};
use v8::Edition;
use v8::numbers::ACCEPTED;

// Bytes copied, and rows put back into the form of version 1.
mod copying;
// The bundle completed.
mod completing;

pub use completing::complete;

// Prints the answer to a bundle, completed, and after it the bundle; of what is no bundle, which has the
// number of its refusal, the answer alone.
fn print_completed(edition: Edition, bytes: &mut [u8]) {
    let opened = open(bytes);
    print_line(answer_line(complete(edition, bytes)));
    if opened.number == ACCEPTED {
        print(bytes);
    }
}

// Completes the bundle on standard input for a terminal of the edition: prints its answer's line, and after
// it the bundle with all rows. Of what is no bundle it prints the line alone.
pub fn serve(edition: Edition) {
    let mut input = [0u8; ROOM];
    let n = io::read_full(STDIN_FILENO, &mut input);
    print_completed(edition, &mut input[..n]);
}
