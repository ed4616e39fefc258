ghost use Rattle.std.specs.Prelude.{◌≡◌};
ghost use Rattle.sm_service.specs.LentRequest.{request_lent};

use crate::request::Request;

/// A request whose parts belong to the caller, so that nothing must be copied to make it.
#[derive(Clone, Copy)]
pub enum LentRequest<'a> {
    /// Returns the value of the key.
    Get(&'a [u8]),
    /// Makes the key hold the text, and replaces the text that it held.
    Put(&'a [u8], &'a [u8]),
    /// Adds the number to the key's count.
    Inc(&'a [u8], i64),
    /// Appends this text to the key's text.
    Append(&'a [u8], &'a [u8]),
    /// Removes the key's value.
    Del(&'a [u8]),
    /// Returns the pairs of the shard whose keys are at least the first key and below the second, at most this many.
    Scan(&'a [u8], &'a [u8], u32),
}

impl Request {
    /// Returns the request with its parts lent.
    pub fn lend(&self) -> LentRequest<'_>
        ensures { request_lent result ≡ self.now }
    {
        match self {
            Request::Get(key) => LentRequest::Get(key.as_bytes()),
            Request::Put(key, text) => LentRequest::Put(key.as_bytes(), text.as_bytes()),
            Request::Inc(key, amount) => LentRequest::Inc(key.as_bytes(), *amount),
            Request::Append(key, tail) => LentRequest::Append(key.as_bytes(), tail.as_bytes()),
            Request::Del(key) => LentRequest::Del(key.as_bytes()),
            Request::Scan(low, high, most) => {
                LentRequest::Scan(low.as_bytes(), high.as_bytes(), *most)
            }
        }
    }
}
