use crate::bytes::Bytes;
use sm_ranges::key::Key;

/// A client's request to the sample service.
#[derive(Drop)]
pub enum Request {
    /// Returns the value of the key.
    Get(Key),
    /// Makes the key hold the text, and replaces the text that it held.
    Put(Key, Bytes),
    /// Adds the number to the key's count. If the key holds nothing, its count is 0 before that.
    Inc(Key, i64),
    /// Appends this text to the key's text. If the key holds nothing, its text is empty before that.
    Append(Key, Bytes),
    /// Removes the key's value.
    Del(Key),
    /// Returns the pairs of the shard whose keys are at least the first key and below the second: at most this many,
    /// and at most `MAX_SCANNED`.
    Scan(Key, Key, u32),
}
