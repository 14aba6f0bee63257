// Text and numbers on standard output, for the programs.
#![tactic(auto)]

ghost use Rattle.io.specs.Counts.{IsPrefixLen};

// A line of three numbers.
pub mod line;

pub use line::{Line, line_of};

// The descriptors of standard input and output.
pub const STDIN_FILENO: i32 = 0;

pub const STDOUT_FILENO: i32 = 1;

pub fn print(text: &[u8]) {
    io::write_all(STDOUT_FILENO, text);
}

// A number in decimal.
pub fn print_number(n: u64) {
    io::print_decimal(STDOUT_FILENO, n);
}

// A line of numbers.
pub fn print_line(line: Line)
    requires { IsPrefixLen line.count line.text }
{
    print(&line.text[..line.count]);
}

// What is wrong with one of the things counted, with its number, on a line.
pub fn print_wrong(what: &[u8], number: u64, text: &[u8]) {
    print(what);
    print(b" ");
    print_number(number);
    print(b": ");
    print(text);
    print(b"\n");
}
