// The edition that a number of a record tells.
use v8::Edition;

// The edition, or none where the number is neither 8 nor 9.
pub fn edition_of(number: u32) -> Option<Edition> {
    match number {
        8 => Some(Edition::V8),
        9 => Some(Edition::V9),
        _ => None,
    }
}
