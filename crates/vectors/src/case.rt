// One case: a line of 25 words in hexadecimal, each with a space or the line's end after it.
//   0 to 9     the words of a routine, with words that never run after its return and slot
//   10 and 11  eight bytes: the numbers of six registers, the codes before and the codes after
//   12 to 17   what the six registers hold before
//   18 to 23   what they hold after
//   24         the edition that the terminal follows, 8 or 9
// A place that is not needed names r0 and holds 0. Codes are NZVC, N the highest of four bits.
ghost use Rattle.std.specs.Prelude.{◌+◌, ◌≤◌, ◌<◌};

use hex_words::word_of;
use states::codes_of;
use step::{MARKS, MarkedCodes, Registers};

// How many bytes a line has.
pub const LINE: usize = 225;

// A line, and its words.
pub type Line = [u8; LINE];

pub type Fields = [u32; 25];

// The return address of every case.
pub const RETURNS: u32 = 65536;

// The word of nine bytes, or none where it or the byte after it is wrong.
fn word_before(mark: u8, bytes: &[u8; 9]) -> Option<u32> {
    if bytes[8] != mark {
        return None;
    }
    word_of(bytes)
}

// What a line says.
pub fn case_of(line: &Line) -> Option<Fields> {
    let mut fields = [0; 25];
    for (i, (field, bytes)) in fields.iter_mut().zip(line.as_chunks().0).enumerate() {
        let mark = if i < 24 { b' ' } else { b'\n' };
        *field = word_before(mark, bytes)?;
    }
    Some(fields)
}

// Byte k of words 10 and 11.
fn byte(fields: &Fields, k: usize) -> u8
    requires { k < 8 }
{
    fields[10 + k / 4].to_be_bytes()[k % 4]
}

// The registers with the six words from `from` on in those that the case names, the return address
// in r15, zero in r0 and all others unset; and the codes of byte `k`.
fn registers_of(fields: &Fields, from: usize, k: usize) -> Registers
    requires from_bound { from + 6 ≤ 25 }
    requires k_bound { k < 8 }
{
    let mut values = [0; 32];
    let mut marks = [false; MARKS];
    marks[0] = true;
    values[15] = RETURNS;
    marks[15] = true;
    for i in 0..6 {
        let r = usize::from(byte(fields, i) % 32);
        values[r] = fields[from + i];
        marks[r] = true;
    }
    let codes = MarkedCodes {
        value: codes_of(u32::from(byte(fields, k))),
        set: true,
    };
    Registers {
        values,
        marks,
        codes,
    }
}

// How the case begins.
pub fn before(fields: &Fields) -> Registers {
    registers_of(fields, 12, 6)
}

// How the case must end.
pub fn after(fields: &Fields) -> Registers {
    registers_of(fields, 18, 7)
}
