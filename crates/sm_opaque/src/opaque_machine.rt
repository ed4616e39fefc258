ghost use Rattle.std.specs.Prelude.{◌≡◌};
ghost use Rattle.sm_opaque.specs.Opaque.{only_reads};

use sm_shard::{ReadAnswer, StoreMachine};
use std::alloc::{AllocError, Global};
use std::marker::Model;

/// The count of a shard's requests, as the machine of a shared store. A request is any bytes: if the first byte is 1,
/// the request only reads, and isn't counted.
#[derive(Drop)]
pub struct OpaqueMachine {
    // It wraps at 2^64.
    made: u64,
}

impl Model for OpaqueMachine {
    ghost use Rattle.std.specs.Prelude.{ℕ};

    ghost Value = { ℕ };

    ghost view = { λ machine. machine.made };
}

impl StoreMachine<Vec<u8>, u64> for OpaqueMachine {
    ghost use Rattle.std.specs.Prelude.{length};
    ghost use Rattle.sm_opaque.specs.Opaque.{opaque_service};
    ghost use Rattle.sm_opaque.specs.lemmas.Reads.{count_stays};

    ghost service = { opaque_service };

    ghost size = { λ request. length request.items };

    fn new(_: Global) -> OpaqueMachine {
        OpaqueMachine { made: 0 }
    }

    fn answer(&mut self, _: Global, request: &Vec<u8>) -> Result<u64, AllocError> {
        let place = self.made;
        if !is_read(request) {
            self.made = place.wrapping_add(1);
        }
        Ok(place)
    }

    fn peek(
        &self,
        alloc: Global,
        request: &Vec<u8>,
    ) -> Result<Option<ReadAnswer<u64>>, AllocError> {
        if !is_read(request) {
            return Ok(None);
        }
        Ok(Some(ReadAnswer {
            reply: self.made,
            text: Vec::new(alloc),
        }))
    }

    fn size_of(request: &Vec<u8>) -> u64 {
        request.len() as u64
    }

    fn save(&self, alloc: Global) -> Result<Vec<u8>, AllocError> {
        Vec::from_slice(alloc, &self.made.to_be_bytes())
    }

    fn load(_: Global, bytes: &[u8]) -> Result<Option<OpaqueMachine>, AllocError> {
        match bytes {
            [a, b, c, d, e, f, g, h] => Ok(Some(OpaqueMachine {
                made: u64::from_be_bytes([*a, *b, *c, *d, *e, *f, *g, *h]),
            })),
            _ => Ok(None),
        }
    }

    ghost reads_leave = { λ count request reads. count_stays count (only_reads request.items) reads };
}

impl OpaqueMachine {
    /// Returns how many requests were counted, which is the place of the next one.
    pub fn made(&self) -> u64
        ensures { result ≡ self.now }
    {
        self.made
    }
}

/// Returns whether the request only reads.
pub fn is_read(request: &[u8]) -> bool
    ensures { result ≡ only_reads request.now }
{
    match request {
        [kind, ..] => *kind == 1,
        [] => false,
    }
}
