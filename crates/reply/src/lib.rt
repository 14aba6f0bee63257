// What the bundle programs say: the line of the answer to a bundle, on a terminal of each edition.
// (Document 01, "Bundle".)
#![tactic(auto)]

ghost use Rattle.bundle.specs.Bundle.{bundle_answer};
ghost use Rattle.reply.specs.Reply.{LineFor};

use bundle::answer;
use output::{Line, STDIN_FILENO, line_of, print_line};
use passes::Answer;
use v8::Edition;

// One byte more than a bundle of any version has at most, so that a longer input is seen to be longer.
pub const ROOM: usize = 62469;

// The line of an answer: number, word and register.
pub fn answer_line(a: Answer) -> Line
    ensures { LineFor a result }
{
    line_of(a.number as u64, a.word.0 as u64, a.register as u64)
}

// The line that answers a bundle, for a terminal of the edition. Any bytes have one.
pub fn reply(edition: Edition, bytes: &[u8]) -> Line
    ensures { LineFor (bundle_answer edition bytes.now) result }
{
    answer_line(answer(edition, bytes))
}

// Answers the bundle on standard input as a terminal of the edition does: prints its line, number, word
// and register in decimal, one space between, and a newline. Any input has one.
pub fn serve(edition: Edition) {
    let mut input = [0u8; ROOM];
    let n = io::read_full(STDIN_FILENO, &mut input);
    print_line(reply(edition, &input[..n]));
}
