ghost use Rattle.std.specs.Prelude.{◌≡◌};
ghost use Rattle.sm_script.specs.Grammar.{first_fault, takes_as_many, arguments_fault};

use crate::fault::LineFault;
use crate::number::{increment, number_between};
use crate::words::Words;
use sm_ranges::key::Key;
use sm_ranges::limits::{MAX_SERVER, MAX_SHARD};

/// The greatest number of pairs that a scan may ask for.
pub(crate) const MAX_PAIRS: u64 = 4_294_967_295;

/// The greatest number of clients that a load may have.
pub(crate) const MAX_CLIENTS: u64 = 16;

/// The greatest number of requests that each client of a load may make.
pub(crate) const MAX_EACH: u64 = 10_000;

/// The shape that a word of a line must have.
#[derive(Clone, Copy, PartialEq, Eq, Drop)]
pub enum Shape {
    /// The number of a shard, 0 to 4,095.
    Shard,
    /// The number of a server, 1 to 4,095.
    Server,
    /// A key, of 1 to 255 bytes.
    Key,
    /// The rest of the line with all its spaces, or nothing if the line has ended.
    Text,
    /// A number that is added to a count: 64 bits with a sign.
    Increment,
    /// How many pairs a scan gives at most: a number of 32 bits.
    Limit,
    /// How many clients a load has, 1 to 16.
    Clients,
    /// How many requests each client of a load makes, 1 to 10,000.
    Each,
}

impl Shape {
    ghost use Rattle.sm_script.specs.Grammar.{takes_word, word_fault};

    /// Returns whether the word has this shape.
    fn takes_word(self, word: &[u8]) -> bool
        ensures { result ≡ takes_word self word.now }
    {
        match self {
            Shape::Shard => number_between(word, 0, u64::from(MAX_SHARD)).is_some(),
            Shape::Server => number_between(word, 1, u64::from(MAX_SERVER)).is_some(),
            Shape::Key => Key::fault_of(word).is_none(),
            Shape::Text => true,
            Shape::Increment => increment(word).is_some(),
            Shape::Limit => number_between(word, 0, MAX_PAIRS).is_some(),
            Shape::Clients => number_between(word, 1, MAX_CLIENTS).is_some(),
            Shape::Each => number_between(word, 1, MAX_EACH).is_some(),
        }
    }

    /// Returns why the word doesn't have this shape, or nothing if it does.
    pub(crate) fn fault(self, word: &[u8]) -> Option<LineFault>
        ensures { result ≡ word_fault self word.now }
    {
        if self.takes_word(word) {
            None
        } else if self == Shape::Key {
            Some(LineFault::BadKey)
        } else {
            Some(LineFault::BadNumber)
        }
    }
}

/// Returns whether there is a word for each shape and there are no others. A text takes all words that are left.
pub(crate) fn takes_as_many(shapes: &[Shape], mut words: Words) -> bool
    ensures { result ≡ takes_as_many shapes.now words.entry }
{
    for shape in shapes {
        if *shape == Shape::Text {
            return true;
        }
        if words.next().is_none() {
            return false;
        }
    }
    words.is_empty()
}

/// Returns the fault of the leftmost word that isn't of its shape.
pub(crate) fn first_fault(shapes: &[Shape], mut words: Words) -> Option<LineFault>
    ensures { result ≡ first_fault shapes.now words.entry }
{
    for shape in shapes {
        match words.next() {
            None => return None,
            Some(word) => {
                if let Some(fault) = shape.fault(word) {
                    return Some(fault);
                }
            }
        }
    }
    None
}

/// Returns the fault in the words that come for these shapes, or nothing if there is none.
pub(crate) fn arguments_fault(shapes: &[Shape], words: &Words) -> Option<LineFault>
    ensures { result ≡ arguments_fault shapes.now words.now }
{
    if takes_as_many(shapes, words.again()) {
        first_fault(shapes, words.again())
    } else {
        Some(LineFault::BadLine)
    }
}
