use sm_script::Form;

/// The sentence about a line.
#[derive(Clone, Copy, Drop)]
pub enum Sentence {
    /// This.
    Text(&'static str),
    /// It has too few or too many words, and is written so.
    Written(Form),
}
