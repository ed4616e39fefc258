use crate::replica::LastRequest;
use std::marker::Model;

/// The bytes of the machine that a part of a base has at most.
pub const PART_BYTES: usize = 524_288;

/// The clients that a part of a base has at most.
pub const PART_CLIENTS: usize = 4_096;

/// A part of a shard's base: bytes of the machine, last requests, by client, and the number below which clients are
/// forgotten.
#[derive(Drop)]
pub struct BasePart<R> {
    state: Vec<u8>,
    lasts: Vec<(u64, LastRequest<R>)>,
    floor: u64,
}

impl<R> Model for BasePart<R> {
    ghost use Rattle.sm_shard.specs.Bases.{Part};

    ghost Value = { Part R };

    ghost view = { λ part. record { state = part.state.items; lasts = part.lasts.items; floor = part.floor } };
}

impl<R: Copy + Drop> BasePart<R> {
    ghost use Rattle.std.specs.Prelude.{◌≡◌};

    /// Returns the part with these bytes and these last requests, and this number.
    pub fn new(state: Vec<u8>, lasts: Vec<(u64, LastRequest<R>)>, floor: u64) -> BasePart<R>
        ensures { result ≡ record { state = state.items; lasts = lasts.items; floor = floor } }
    {
        BasePart {
            state,
            lasts,
            floor,
        }
    }

    /// Returns its bytes of the machine.
    pub fn state(&self) -> &[u8]
        ensures { result.now ≡ self.now.state }
    {
        &self.state
    }

    /// Returns the number below which clients are forgotten.
    pub fn floor(&self) -> u64
        ensures { result ≡ self.now.floor }
    {
        self.floor
    }

    /// Returns its last requests, by client.
    pub fn lasts(&self) -> &[(u64, LastRequest<R>)]
        ensures { result.now ≡ self.now.lasts }
    {
        &self.lasts
    }
}
