// Notes: what is known of the condition codes, their form, and when one fits another
// (specs/Entry.antt).
ghost use Rattle.std.specs.Prelude.{◌≡◌};
ghost use Rattle.rows.specs.Entry.{codes_set, comparison, note_ok, fits_note};

use crate::Note;
use v8::signed::BIAS;

// The kinds, numbers for the reason that those of entries are.

// Nothing is known of the codes.
pub const NOTE_UNSET: u8 = 0;
// The codes are set.
pub const NOTE_SET: u8 = 1;
// The codes are those of a comparison.
pub const NOTE_COMPARISON: u8 = 2;

// The note that the codes are set.
pub fn codes_set() -> Note
    ensures { result ≡ codes_set }
{
    Note {
        kind: NOTE_SET,
        register: 0,
        number: BIAS,
    }
}

// The note that the codes are those that SUBcc gives for the register's present value and the
// number, in excess form.
pub fn comparison(register: u8, number: u32) -> Note
    ensures { result ≡ comparison register number }
{
    Note {
        kind: NOTE_COMPARISON,
        register,
        number,
    }
}

// Whether a note is well formed.
#[tactic(auto, using(v8::proofs::Choice::tests), unfolding(crate::specs::Entry::note_ok))]
pub fn note_ok(n: Note) -> bool
    ensures { result ≡ note_ok n }
{
    if n.kind == NOTE_COMPARISON {
        return (1 <= n.register) & (n.register <= 31);
    }
    (n.kind <= NOTE_SET) & (n.register == 0) & (n.number == BIAS)
}

// Whether what is known of the codes obeys another note.
#[tactic(auto, using(v8::proofs::Choice::tests), unfolding(crate::specs::Entry::fits_note))]
pub fn fits_note(a: Note, b: Note) -> bool
    ensures { result ≡ fits_note a b }
{
    (b.kind == NOTE_UNSET) | (b.kind == NOTE_SET) & (a.kind != NOTE_UNSET) | (a == b)
}
