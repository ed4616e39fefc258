ghost use Rattle.std.specs.Prelude.{ℕ, List, ◌≡◌, ◌<◌, ◌^◌, IfOk, IfSome, length};

use std::alloc::{AllocError, Global};

/// A reply that has bytes, for the last requests in a base.
pub trait ReplyBytes: Copy + Drop {
    /// The bytes that encode a reply.
    ghost spelled: { Self → List ℕ };

    /// Returns the bytes that encode the reply.
    fn bytes(self, alloc: Global) -> Result<Vec<u8>, AllocError>
        ensures spelled { IfOk result (λ bytes. bytes.items ≡ spelled self) }
        ensures short { IfOk result (λ bytes. length bytes.items < 2 ^ 32) };

    /// Returns a reply that these bytes encode, or nothing if they encode none.
    fn of_bytes(bytes: &[u8]) -> Option<Self>
        ensures { IfSome result (λ reply. bytes.now ≡ spelled reply) };
}

impl ReplyBytes for u64 {
    ghost use Rattle.sm_shard_bytes.specs.Replies.{place_bytes};

    ghost spelled = { place_bytes };

    fn bytes(self, alloc: Global) -> Result<Vec<u8>, AllocError> {
        Vec::from_slice(alloc, &self.to_be_bytes())
    }

    fn of_bytes(bytes: &[u8]) -> Option<u64> {
        match bytes {
            [a, b, c, d, e, f, g, h] => Some(u64::from_be_bytes([*a, *b, *c, *d, *e, *f, *g, *h])),
            _ => None,
        }
    }
}
