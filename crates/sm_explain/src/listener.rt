use crate::sentence::Sentence;

/// The listener for the reasons of refused lines.
pub trait Listener {
    /// Takes the number of a line (2 is the one after the settings), its answer, for instance `error BadLine`, or the
    /// strange thing about it, and a sentence about that.
    fn hear(&self, line: u64, answer: &str, sentence: Sentence);
}

impl<L: Listener> Listener for &L {
    fn hear(&self, line: u64, answer: &str, sentence: Sentence) {
        (**self).hear(line, answer, sentence);
    }
}
