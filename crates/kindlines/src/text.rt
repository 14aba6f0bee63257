// The marks of a word as text (specs/Text.antt).
ghost use Rattle.std.specs.Prelude.{◌≡◌, ◌<◌};
ghost use Rattle.v8.specs.Numbers.{most_words};
ghost use Rattle.kindlines.specs.Text.{letter_of, text_at, text_length, marks_text};

use lister_rules::TABLE_MARKS;
use marks::REGISTERS;

// How long the text is: 32 letters in four groups.
pub const TEXT_LENGTH: usize = 35;

const SPACE: u8 = b' ';

// Not reached, number, address, address or null, return, unset.
const LETTERS: [u8; 6] = *b".nazr-";

// The letter of a mark.
#[tactic(auto, using(v8::proofs::Choice::tests), unfolding(crate::specs::Text::letter_of))]
fn letter_of(mark: u8) -> u8
    ensures { result ≡ letter_of mark }
{
    LETTERS.get(mark as usize).copied().unwrap_or(b'?')
}

// What stands at place k of the text: a letter, or a space after eight of them.
#[tactic(auto, using(v8::proofs::Choice::tests), unfolding(crate::specs::Text::text_at))]
fn text_at(table: &[u8; TABLE_MARKS], w: usize, k: usize) -> u8
    requires { (w < most_words) × (k < text_length) }
    ensures { result ≡ text_at table.now w k }
{
    if k % 9 == 8 {
        return SPACE;
    }
    letter_of(table[REGISTERS * w + (8 * (k / 9) + k % 9)])
}

// The text of word w's marks.
pub fn marks_text(table: &[u8; TABLE_MARKS], w: usize) -> [u8; TEXT_LENGTH]
    requires { w < most_words }
    ensures { result ≡ marks_text table.now w }
{
    let mut text = [SPACE; TEXT_LENGTH];
    for k in 0..TEXT_LENGTH {
        text[k] = text_at(table, w, k);
    }
    text
}
