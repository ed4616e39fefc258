ghost use Rattle.std.specs.Prelude.{◌≡◌, ◌&&◌, map};
ghost use Rattle.std.specs.List.{find};
ghost use Rattle.std.specs.Option.{option_map};
ghost use Rattle.std.specs.Str.{bytes_eq};
ghost use Rattle.sm_script.specs.Forms.{NamesDiffer, form_named, is_request, request_form_named, row_of_form, table};

use crate::shape::Shape;
use crate::topic::Topic;
use crate::word::{FORMS, Word};

/// The way in which a line is written, and its effect, over the types of its texts and of its shapes. So a clause can
/// name the constant of all forms.
#[derive(Clone, Copy, Drop)]
pub struct FormOf<T, S> {
    /// The kind of call that the line becomes, with the words after this one.
    pub word: Word,
    /// How the word is spelled.
    pub name: T,
    /// The words after it, as the docs write them; empty if there are none.
    pub arguments: T,
    /// The shapes of the words after it. For `at A` and `client`, the request behind these isn't among the shapes.
    pub shapes: S,
    /// The heading under which the help lists it.
    pub topic: Topic,
    /// Its effect, in a sentence.
    pub help: T,
    /// An example of such a line.
    pub example: T,
}

/// The way in which a line is written, and its effect.
pub type Form = FormOf<&'static str, &'static [Shape]>;

/// Returns how all lines are written, in the order in which they are looked for: requests first, because most lines are
/// requests.
#[tactic(auto, unfolding(crate::specs::Forms::table))]
pub fn forms() -> &'static [Form]
    ensures { map row_of_form result.now ≡ table }
{
    &FORMS
}

// Returns the form among these whose word has these bytes.
fn named_among(forms: &[Form], bytes: &[u8]) -> Option<Form>
    ensures { result ≡ find (λ form. bytes_eq form.name.now bytes.now) forms.now }
{
    forms
        .iter()
        .copied()
        .find(|form| form.name.as_bytes() == bytes)
}

// Returns the form of a request among these whose word has these bytes.
fn request_among(forms: &[Form], bytes: &[u8]) -> Option<Form>
    ensures { result ≡ find (λ form. is_request form.topic && bytes_eq form.name.now bytes.now) forms.now }
{
    forms.iter().copied().find(|form| form.topic == Topic::Requests
        && form.name.as_bytes() == bytes)
}

/// Returns the form of a line that begins with these bytes as its word, or nothing if there is no such line.
pub fn form_of(bytes: &[u8]) -> Option<Form>
    ensures { option_map row_of_form result ≡ form_named bytes.now }
{
    named_among(forms(), bytes)
}

/// Returns the form of a request whose word has these bytes.
pub(crate) fn request_form_of(bytes: &[u8]) -> Option<Form>
    ensures { option_map row_of_form result ≡ request_form_named bytes.now }
{
    request_among(forms(), bytes)
}

/// No two forms have the same word, so a line can be read in only one way.
#[tactic(auto, unfolding(crate::specs::Forms::table))]
pub fn names_differ()
    ensures { NamesDiffer (map (λ row. row.name) table) }
{}
