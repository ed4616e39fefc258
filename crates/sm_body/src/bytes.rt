ghost use Rattle.std.specs.Prelude.{◌≡◌, IfOk};

use std::alloc::{AllocError, Global};
use std::marker::Model;

/// Bytes in memory of their own, such as a text. They don't have to be UTF-8. Contracts see them as a list, so two
/// values are the same if their bytes are equal, wherever they are in memory.
#[derive(Clone, Drop)]
pub struct Bytes {
    bytes: Vec<u8>,
}

impl Model for Bytes {
    ghost use Rattle.std.specs.Prelude.{List, ℕ};

    ghost Value = { List ℕ };

    ghost view = { λ text. text.bytes.items };
}

impl From<Vec<u8>> for Bytes {
    ghost from_gives = { λ bytes text. text ≡ bytes.items };

    fn from(bytes: Vec<u8>) -> Bytes {
        Bytes { bytes }
    }
}

impl From<Bytes> for Vec<u8> {
    ghost from_gives = { λ text bytes. bytes.items ≡ text };

    fn from(text: Bytes) -> Vec<u8> {
        text.bytes
    }
}

impl Bytes {
    /// Returns a copy of the bytes.
    pub fn new(alloc: Global, bytes: &[u8]) -> Result<Bytes, AllocError>
        ensures { IfOk result (λ text. text ≡ bytes.now) }
    {
        Ok(Bytes {
            bytes: Vec::from_slice(alloc, bytes)?,
        })
    }

    /// Returns the bytes.
    pub fn as_bytes(&self) -> &[u8]
        ensures { result.now ≡ self.now }
    {
        &self.bytes
    }
}
