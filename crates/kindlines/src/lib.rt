// The listing of a bundle's routine as lines, for dealers who have no rows yet. The bundle's rows and its
// result entry are not looked at. There is a line for each word:
//
//   INDEX WORD GLOBALS OUTS LOCALS INS
//
// INDEX is decimal and WORD hexadecimal. Then comes a letter for each of r0 to r31: `.` not reached, `n`
// number, `a` address, `z` address or null, `r` return, `-` unset. A bundle that is refused has one line
// instead: number, word and register, as the bundle program prints them. (Document 02, request 2.)
#![tactic(auto)]

// The listing of a bundle's routine.
mod listing;
// The marks of a word as text.
mod text;
// The lines that are printed.
mod lines;

use lines::show_listing;
use lister_rules::TABLE_MARKS;
use listing::list_bundle;
use marks::kinds::NOT_REACHED;
use output::{STDIN_FILENO, print_line};
use reply::{ROOM, answer_line};
use v8::Edition;
use v8::numbers::ACCEPTED;

// Lists the kinds of the routine in the bundle on standard input, for a terminal of the edition.
pub fn list(edition: Edition) {
    let mut input = [0u8; ROOM];
    let n = io::read_full(STDIN_FILENO, &mut input);
    let mut table = [NOT_REACHED; TABLE_MARKS];
    let answer = list_bundle(edition, &input[..n], &mut table);
    if answer.number != ACCEPTED {
        return print_line(answer_line(answer));
    }
    show_listing(&input[..n], &table)
}
