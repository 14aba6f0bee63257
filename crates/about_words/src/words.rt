// The refusal of a word, by its number.
use crate::Routine;
use passes::Answer;
use v8::Reading;
use v8::numbers::{BAD_FLOW, CALLERS_REGISTER, EDGE_MISFIT, RESULT_MISFIT};

impl Routine<'_> {
    // What the refusal of a word is about, after the word itself: nothing more, where the word is not read.
    pub fn show_refused_word(&self, a: Answer) {
        let at = a.word.0 as usize;
        match a.number {
            BAD_FLOW => return self.show_flow(at),
            CALLERS_REGISTER => return self.show_written(at),
            _ => {}
        }
        if let Reading::Read(_) = self.reading_at(at) {
            let edge = a.number == EDGE_MISFIT || a.number == RESULT_MISFIT;
            self.show_looked(at, edge);
        }
    }
}
