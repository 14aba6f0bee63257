// The lines of a listing.
ghost use Rattle.std.specs.Prelude.{◌<◌};
ghost use Rattle.v8.specs.Numbers.{most_words};

use crate::text::marks_text;
use bundle_open::open;
use lister_rules::TABLE_MARKS;
use output::{STDOUT_FILENO, print, print_number};
use v8::numbers::MOST_WORDS;

// The line of a word.
fn show_word(w: usize, word: u32, table: &[u8; TABLE_MARKS])
    requires { w < most_words }
{
    print_number(w as u64);
    print(b" ");
    io::print_hex(STDOUT_FILENO, word as u64, 8);
    print(b" ");
    print(&marks_text(table, w));
    print(b"\n");
}

// The lines of the words; a routine that is listed has no more than a table has room for.
fn show_words(words: &[u32], table: &[u8; TABLE_MARKS]) {
    for (w, &word) in words.iter().take(MOST_WORDS).enumerate() {
        show_word(w, word, table);
    }
}

// The lines of a bundle that is listed in a table.
pub fn show_listing(bytes: &[u8], table: &[u8; TABLE_MARKS]) {
    let opened = open(bytes);
    show_words(&opened.words[..opened.count], table);
}
