// A record: how many numbers it has, the numbers of 32 bits, big-endian, and then perhaps bytes.
ghost use Rattle.std.specs.Prelude.{◌≤◌};

use crate::MOST_NUMBERS;
use output::STDIN_FILENO;

// The numbers of a record; those that it does not have are 0.
pub type Numbers = [u32; MOST_NUMBERS];

// The record is cut short, or it is too long.
#[derive(Clone, Copy)]
pub struct BadRecord;

// The records that a function reads, one after another. After a bad one there is none.
#[derive(Drop)]
pub struct Records<F> {
    read: F,
    ended: bool,
}

impl<F> Records<F> {
    pub fn new(read: F) -> Records<F> {
        Records { read, ended: false }
    }
}

impl<T, F: FnMut() -> Option<Result<T, BadRecord>> + Drop> Iterator for Records<F> {
    type Item = Result<T, BadRecord>;

    ghost can_next = { λ s. F.IsAlwaysCallable s.read };

    fn next(&mut self) -> Option<Result<T, BadRecord>> {
        if self.ended {
            return None;
        }
        let record = (self.read)()?;
        self.ended = record.is_err();
        Some(record)
    }
}

// Fills a part with bytes that are read, and answers whether there were as many.
pub fn fill(part: &mut [u8]) -> bool {
    let n = io::read_full(STDIN_FILENO, part);
    n == part.len()
}

// Reads so many bytes, and gives them with zeros after them.
pub fn read_bytes<const N: usize>(length: usize) -> Result<[u8; N], BadRecord>
    requires { length ≤ N }
{
    let mut bytes = [0; N];
    if !fill(&mut bytes[..length]) {
        return Err(BadRecord);
    }
    Ok(bytes)
}

// Reads the bytes that a record begins with. There are none where there is no further record.
pub fn read_head<const N: usize>() -> Option<Result<[u8; N], BadRecord>> {
    let mut head = [0; N];
    match io::read_full(STDIN_FILENO, &mut head) {
        0 => None,
        n if n < N => Some(Err(BadRecord)),
        _ => Some(Ok(head)),
    }
}

// Reads the numbers of a record behind its head.
fn numbers_after(head: [u8; 4]) -> Result<Numbers, BadRecord> {
    let count = u32::from_be_bytes(head) as usize;
    if MOST_NUMBERS < count {
        return Err(BadRecord);
    }
    let bytes: [u8; 4 * MOST_NUMBERS] = read_bytes(4 * count)?;
    let mut numbers = [0; MOST_NUMBERS];
    for (number, &bytes) in numbers.iter_mut().zip(bytes.as_chunks().0) {
        *number = u32::from_be_bytes(bytes);
    }
    Ok(numbers)
}

// Reads the numbers of the next record.
pub fn read_numbers() -> Option<Result<Numbers, BadRecord>> {
    let head = read_head()?;
    Some(head.and_then(numbers_after))
}

// A count, or the most that it may be.
pub fn count_of(number: u32, most: u32) -> usize
    ensures { result ≤ most }
{
    number.min(most) as usize
}
