// What the answer to a bundle is about: one item a line, a name and values in decimal, found by the
// functions that the check itself calls.
//
//   word N VALUE                        the word that is named
//   sethi RD NUMBER                     .. and how it is read: FORM is 0 where SECOND is a register,
//   alu OP CODES RD RS1 FORM SECOND     1 where it is a number; OP counts as in the crate v8
//   shift OP RD RS1 FORM SECOND
//   load OP RD RS1 FORM SECOND
//   store OP RD RS1 FORM SECOND
//   branch ANNUL CONDITION HINT         HINT is 0 where the branch has no prediction, 1 where it is
//                                       predicted untaken, 2 taken
//   return
//   unread NUMBER
//   words N                             how many words there are
//   slot W                              the word is the slot of word W, and looked at with what W hands on
//   landed W                            the word is the slot of word W, and looked at as an ordinary word,
//                                       with its own row, since a branch lands on it
//   row W                               the row of word W: its entries that are not unset, and its note
//   handed, made                        the same of the row that an edge hands on, and that it ends with
//   entry R KIND REGION STEP LO HI      R is 33 to 38 for a scratch word
//   note KIND REGISTER NUMBER
//   edge TAKEN EXISTS RUNS              an edge, and whether its slot runs; then where it ends
//   to W IN SLOT                        .. at a word, inside the code, a slot
//   caller
//   narrowed R                          the register whose entry the edge narrowed
//   kept WHY                            nothing was narrowed: 1 no comparison is noted, 2 the condition
//                                       says nothing of order, 3 the noted entry is no number and no
//                                       address that may be null compared with 0, 4 nothing was dropped
//   misfit R, has .., asks ..           the place that does not fit, what it has and what is asked
//   has-note .., asks-note ..
//   first R .., second R .., stored R ..   the operands of the word, with their entries
//   reach REGION STEP LO HI WIDTH       the offsets that an access reaches, and its width
//   offsets REGION STEP LO HI           the offsets that the word makes
//   region R SIZE FIELDS                a region, and then its fields
//   field K ELEMENT PERMISSION TARGET OFFSET COUNT LO HI
//   at OFFSET                           where the bytes at fault stand in the bundle
//   bytes B ..                          these bytes
//   part NAME ..                        of which part they are: size, head, region R, field R K (or field
//                                       I of all, where no policy is built), entry, result
//   size N                              the size of the region
//   breaks T                            the test that a field breaks: 1 element, 2 permission, 3 count,
//                                       4 grid, 5 end, 6 values and target, 7 it begins before END
//   end END                             where the fields before end
//   length N                            how many bytes there are
//   given N                             how many the counts give
#![tactic(auto)]

// What an answer is about, by its number.
mod refusals;

use output::{STDIN_FILENO, print_line};
use refusals::show_answer;
use reply::{ROOM, reply};
use v8::Edition;

// Explains the answer that a terminal of the edition has to the bundle on standard input: prints the
// line that answers it, and then what the answer is about.
pub fn explain(edition: Edition) {
    let mut input = [0u8; ROOM];
    let n = io::read_full(STDIN_FILENO, &mut input);
    print_line(reply(edition, &input[..n]));
    show_answer(edition, &input[..n]);
}
