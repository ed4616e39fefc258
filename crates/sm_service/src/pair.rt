ghost use Rattle.std.specs.Prelude.{◌≡◌, IfOk};
ghost use Rattle.sm_map.specs.Val.{held_of, row_of};

use crate::bytes::Bytes;
use crate::held::Held;
use sm_map::val::Val;
use std::alloc::{AllocError, Global};
use std::marker::Model;

/// A key and its value when a scan found it.
#[derive(Drop)]
pub struct Pair {
    key: Bytes,
    held: Held,
}

impl Model for Pair {
    ghost use Rattle.sm_map.specs.KeyMap.{KeyPair};
    ghost use Rattle.sm_service.specs.Pairs.{stored_as};

    ghost Value = { KeyPair };

    ghost view = { λ pair. record { key = pair.key; value = stored_as pair.held } };
}

impl Pair {
    // Returns a copy of a map's row.
    pub(crate) fn new(alloc: Global, row: &(&[u8], Val<'_>)) -> Result<Pair, AllocError>
        ensures { IfOk result (λ pair. pair ≡ row_of row.now) }
    {
        Ok(Pair {
            key: Bytes::new(alloc, row.0)?,
            held: Held::new(alloc, row.1)?,
        })
    }

    /// Returns the bytes of the key.
    pub fn key(&self) -> &[u8]
        ensures { result.now ≡ self.now.key }
    {
        self.key.as_bytes()
    }

    /// Returns the key's value.
    pub fn value(&self) -> Val<'_>
        ensures { held_of result ≡ self.now.value }
    {
        self.held.as_val()
    }
}
