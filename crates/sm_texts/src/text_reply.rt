use sm_shard_bytes::ReplyBytes;
use std::alloc::{AllocError, Global};

/// A reply, in a form that can be copied. The kind is 0 if the key has no value, 1 done, 2 a text of `number` bytes, 3
/// the count with these bits, 5 a value of the wrong kind, 6 a count that would be too large, 7 a text that would be
/// too long, and 8 if the bytes aren't a request.
#[repr(C)]
#[derive(Clone, Copy, PartialEq, Eq, Drop)]
pub struct TextReply {
    pub number: u64,
    pub kind: u8,
}

impl TextReply {
    ghost use Rattle.std.specs.Prelude.{◌≡◌};

    /// Returns the reply of this kind, with this number.
    pub fn new(kind: u8, number: u64) -> TextReply
        ensures { result ≡ record { kind = kind; number = number } }
    {
        TextReply { kind, number }
    }
}

impl ReplyBytes for TextReply {
    ghost use Rattle.sm_texts.specs.Replies.{reply_bytes};

    ghost spelled = { reply_bytes };

    fn bytes(self, alloc: Global) -> Result<Vec<u8>, AllocError> {
        let mut bytes = Vec::new(alloc);
        bytes.push(self.kind)?;
        bytes.extend_from_slice(&self.number.to_be_bytes())?;
        Ok(bytes)
    }

    fn of_bytes(bytes: &[u8]) -> Option<TextReply> {
        match bytes {
            [kind, a, b, c, d, e, f, g, h] => Some(TextReply::new(
                *kind,
                u64::from_be_bytes([*a, *b, *c, *d, *e, *f, *g, *h]),
            )),
            _ => None,
        }
    }
}
