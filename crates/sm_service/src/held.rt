ghost use Rattle.std.specs.Prelude.{◌≡◌, IfOk};
ghost use Rattle.sm_map.specs.Val.{held_of};
ghost use Rattle.sm_service.specs.Pairs.{stored_as};

use crate::bytes::Bytes;
use sm_map::val::Val;
use std::alloc::{AllocError, Global};

// A key's value, with its text in memory of its own.
#[derive(Drop)]
pub(crate) enum Held {
    Text(Bytes),
    Count(i64),
}

impl Held {
    // Returns a copy of the value.
    pub(crate) fn new(alloc: Global, value: Val<'_>) -> Result<Held, AllocError>
        ensures { IfOk result (λ held. stored_as held ≡ held_of value.entry) }
    {
        match value {
            Val::Text(text) => Ok(Held::Text(Bytes::new(alloc, text)?)),
            Val::Count(count) => Ok(Held::Count(count)),
        }
    }

    // Returns the value.
    pub(crate) fn as_val(&self) -> Val<'_>
        ensures { held_of result ≡ stored_as self.now }
    {
        match self {
            Held::Text(text) => Val::Text(text.as_bytes()),
            Held::Count(count) => Val::Count(*count),
        }
    }
}
