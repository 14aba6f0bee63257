// A line of three numbers in decimal, one space between (specs/Line.antt).
ghost use Rattle.std.specs.Prelude.{◌+◌, ◌≤◌, ◌<◌, ◌≡◌, [], ◌∷◌, ◌++◌, length, take};
ghost use Rattle.output.specs.Line.{Adds, LineOf};

const SPACE: u8 = b' ';

const NEWLINE: u8 = b'\n';

// A line: the first `count` bytes of the text. It is its own value, and no slice, since LineOf and all that
// is proved of replies speak of a line that is returned.
#[derive(Clone, Copy)]
pub struct Line {
    pub text: [u8; 64],
    pub count: usize,
}

// Puts a byte at a place, and answers the next place.
fn put_byte(text: &mut [u8], at: usize, byte: u8) -> usize
    requires { at < length text.old }
    ensures next { result ≡ at + 1 }
    ensures text { take result text.new ≡ take at text.old ++ (byte ∷ []) }
{
    text[at] = byte;
    at + 1
}

// Puts a number in decimal from a place on, and answers the next place.
fn put_number(text: &mut [u8], at: usize, n: u64) -> usize
    requires { at + 20 ≤ length text.old }
    ensures next { result ≤ at + 20 }
    ensures text { Adds n (take at text.old) (take result text.new) }
{
    let mut digits = [0u8; 20];
    let k = io::decimal(n, &mut digits);
    text[at..at + k].copy_from_slice(&digits[..k]);
    at + k
}

// The line of three numbers.
pub fn line_of(a: u64, b: u64, c: u64) -> Line
    ensures { LineOf a b c result }
{
    let mut text = [0u8; 64];
    let first = put_number(&mut text, 0, a);
    let second = put_byte(&mut text, first, SPACE);
    let third = put_number(&mut text, second, b);
    let fourth = put_byte(&mut text, third, SPACE);
    let fifth = put_number(&mut text, fourth, c);
    let count = put_byte(&mut text, fifth, NEWLINE);
    Line { text, count }
}
