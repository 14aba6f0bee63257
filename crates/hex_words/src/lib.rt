// Words spelled in hexadecimal, for the programs that read them.
#![tactic(auto)]

ghost use Rattle.std.specs.Prelude.{◌≤◌, ◌<◌, length, IfSome};

// The value of a hexadecimal digit in lower case. (`char::to_digit` takes upper case too.)
fn digit(b: u8) -> Option<u32>
    ensures { IfSome result (λ d. d < 16) }
{
    match b {
        b'0'..=b'9' => Some(u32::from(b - b'0')),
        b'a'..=b'f' => Some(u32::from(b - b'a') + 10),
        _ => None,
    }
}

// The word that the first eight bytes spell, or none where a digit is not hexadecimal.
pub fn word_of(line: &[u8]) -> Option<u32>
    requires { 8 ≤ length line.now }
{
    let mut w = 0;
    for &b in &line[..8] {
        w = (w << 4) | digit(b)?;
    }
    Some(w)
}
