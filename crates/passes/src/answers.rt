// Answers (specs/Answer.antt).
ghost use Rattle.std.specs.Prelude.{◌≡◌};
ghost use Rattle.passes.specs.Answer.{accepted, refuse, need};
ghost use Rattle.passes.specs.Passes.{unless_fault};

use crate::Answer;
use v8::WordIndex;
use v8::numbers::ACCEPTED;

// The answer that nothing is broken.
pub fn accept() -> Answer
    ensures { result ≡ accepted }
{
    Answer {
        number: ACCEPTED,
        word: WordIndex(0),
        register: 0,
    }
}

// The number of a broken condition, with the word and the register that it names.
pub fn refuse(number: u8, at: WordIndex, register: u8) -> Answer
    ensures { result ≡ refuse number at.0 register }
{
    Answer {
        number,
        word: at,
        register,
    }
}

// A condition that holds, or its number, word and register.
pub fn need(holds: bool, number: u8, at: WordIndex, register: u8) -> Answer
    ensures { result ≡ need holds number at.0 register }
{
    if holds {
        return accept();
    }
    refuse(number, at, register)
}

// A row's lowest place that has a flaw is named, if there is one.
pub fn unless_fault(number: u8, at: WordIndex, flaw: Option<u8>) -> Answer
    ensures { result ≡ unless_fault number at.0 flaw }
{
    match flaw {
        None => accept(),
        Some(place) => refuse(number, at, place),
    }
}
