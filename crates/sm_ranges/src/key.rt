ghost use Rattle.std.specs.Prelude.{◌≡◌, ◌↔◌, IfOk, OnOk};
ghost use Rattle.sm_ranges.specs.declared.key.KeyFault.TheVariants.{Empty, TooLong};

use crate::limits::MAX_KEY;
use std::alloc::{AllocError, Global};
use std::marker::Model;
use thiserror::Error;

/// A key of the application's key space: 1 to 255 bytes.
#[derive(Drop)]
pub struct Key {
    bytes: Vec<u8>,
}

impl Model for Key {
    ghost use Rattle.std.specs.Prelude.{List, ℕ};
    ghost use Rattle.sm_ranges.specs.Key.{IsKey};

    ghost Value = { List ℕ };

    ghost view = { λ key. key.bytes.items };

    ghost invariant = { λ key. IsKey key.bytes.items };
}

/// Why bytes are not a key.
#[derive(Clone, Copy, Debug, PartialEq, Eq, Drop, Error)]
pub enum KeyFault {
    /// There are no bytes.
    #[error("a key has at least one byte")]
    Empty,
    /// There are more than 255 bytes.
    #[error("a key has at most 255 bytes")]
    TooLong,
    /// The bytes are a key, but memory for it was refused.
    #[error("out of memory")]
    NoMemory,
}

impl From<AllocError> for KeyFault {
    ghost use Rattle.sm_ranges.specs.declared.key.KeyFault.TheVariants.{NoMemory};

    ghost from_gives = { λ _ fault. fault ≡ NoMemory };

    fn from(_: AllocError) -> Self {
        KeyFault::NoMemory
    }
}

impl Key {
    ghost use Rattle.std.specs.Prelude.{length, is_none, nat_le, Some, ◌<◌, ◌&&◌};
    ghost use Rattle.sm_ranges.specs.Key.{IsKey};

    /// Returns the key with these bytes. If there aren't 1 to 255 of them, or if memory is refused, returns the fault.
    pub fn new(alloc: Global, bytes: &[u8]) -> Result<Key, KeyFault>
        ensures ok { IfOk result (λ key. key ≡ bytes.now) }
        ensures is_key { OnOk result (IsKey bytes.now) }
        ensures empty { (result ≡ Err KeyFault.Empty) ↔ (length bytes.now ≡ 0) }
        ensures too_long { (result ≡ Err KeyFault.TooLong) ↔ (MAX_KEY < length bytes.now) }
    {
        if let Some(fault) = Key::fault_of(bytes) {
            return Err(fault);
        }
        match Key::of(alloc, bytes) {
            Ok(key) => Ok(key),
            Err(_) => Err(KeyFault::NoMemory),
        }
    }

    /// Returns why the bytes are no key, or nothing if there are 1 to 255. Never returns `NoMemory`.
    pub fn fault_of(bytes: &[u8]) -> Option<KeyFault>
        ensures none { is_none result ≡ (nat_le 1 (length bytes.now) && nat_le (length bytes.now) MAX_KEY) }
        ensures empty { (result ≡ Some KeyFault.Empty) ↔ (length bytes.now ≡ 0) }
        ensures too_long { (result ≡ Some KeyFault.TooLong) ↔ (MAX_KEY < length bytes.now) }
    {
        if bytes.is_empty() {
            return Some(KeyFault::Empty);
        }
        if bytes.len() > MAX_KEY {
            return Some(KeyFault::TooLong);
        }
        None
    }

    /// Returns the key with these bytes. The caller must know that there are 1 to 255.
    pub fn of(alloc: Global, bytes: &[u8]) -> Result<Key, AllocError>
        requires { IsKey bytes.now }
        ensures { IfOk result (λ key. key ≡ bytes.now) }
    {
        Ok(Key {
            bytes: Vec::from_slice(alloc, bytes)?,
        })
    }

    /// Returns the bytes of the key.
    pub fn as_bytes(&self) -> &[u8]
        ensures bytes { result.now ≡ self.now }
        ensures is_key { IsKey self.now }
    {
        &self.bytes
    }

    /// Returns a copy of the key.
    pub fn try_clone(&self, alloc: Global) -> Result<Key, AllocError>
        ensures { IfOk result (λ key. key ≡ self.now) }
    {
        Key::of(alloc, self.as_bytes())
    }
}
