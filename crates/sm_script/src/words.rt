ghost use Rattle.std.specs.Prelude.{◌≡◌, ◌==◌, ◌<◌, ◌∷◌, [], false, length, take, slice_index, All, IfSome, IfNone};
ghost use Rattle.std.specs.Prelude.{MatchOption};
ghost use Rattle.std.specs.List.{join_with_byte};
ghost use Rattle.std.specs.Option.{option_copied};
ghost use Rattle.sm_script.specs.Words.{words_of, words_left, is_nil};

use std::marker::Model;

// Returns the place of the first space.
fn first_space(line: &[u8]) -> Option<usize>
    ensures space { IfSome result (λ end. (end < length line.now) × (slice_index line.now end ≡ 32)) }
    ensures before { IfSome result (λ end. All (λ byte. (byte == 32) ≡ false) (take end line.now)) }
    ensures none { IfNone result (All (λ byte. (byte == 32) ≡ false) line.now) }
{
    line.iter().position(|byte| *byte == b' ')
}

// Returns the first word of a line, and the rest behind its space.
fn cut(line: &[u8]) -> (&[u8], Option<&[u8]>)
    ensures { words_of line.now ≡ result.0.now ∷ words_left (option_copied result.1) }
{
    match first_space(line) {
        Some(end) => (&line[..end], Some(&line[end + 1..])),
        None => (line, None),
    }
}

/// The words of a line that aren't read yet. There is a single space between words, so two spaces enclose an empty
/// word.
#[derive(Drop)]
pub(crate) struct Words<'a> {
    rest: Option<&'a [u8]>,
}

impl<'a> Model for Words<'a> {
    ghost use Rattle.std.specs.Prelude.{List, ℕ};
    ghost use Rattle.std.specs.Option.{option_copied};
    ghost use Rattle.sm_script.specs.Words.{words_left};

    ghost Value = { List (List ℕ) };

    ghost view = { λ words. words_left (option_copied words.rest) };
}

impl<'a> Words<'a> {
    /// Returns all words of a line.
    pub(crate) fn new(line: &'a [u8]) -> Words<'a>
        ensures { result ≡ words_of line.now }
    {
        Words { rest: Some(line) }
    }

    /// Returns the same words, to be read once more.
    pub(crate) fn again(&self) -> Words<'a>
        ensures { result ≡ self.now }
    {
        Words { rest: self.rest }
    }

    /// Returns the next word, if there is one.
    pub(crate) fn next(&mut self) -> Option<&'a [u8]>
        ensures { MatchOption result ((self.old ≡ []) × (self.new ≡ [])) (λ word. self.old ≡ word.now ∷ self.new) }
    {
        let (word, rest) = cut(self.rest?);
        self.rest = rest;
        Some(word)
    }

    /// Returns whether no word is left.
    pub(crate) fn is_empty(&self) -> bool
        ensures { result ≡ is_nil self.now }
    {
        match self.rest {
            None => true,
            Some(_) => false,
        }
    }

    /// Returns the words that are left as one text, with the spaces between them.
    pub(crate) fn text(&self) -> &'a [u8]
        ensures { result.now ≡ join_with_byte 32 self.now }
    {
        match self.rest {
            None => &[],
            Some(line) => line,
        }
    }
}
