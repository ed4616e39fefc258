use crate::bytes::Bytes;
use crate::pair_list::PairList;

/// The replies of the sample service.
#[derive(Drop)]
pub enum Reply {
    /// The key holds nothing.
    Nothing,
    /// The key holds the new text; or it holds nothing, if the request was to remove it.
    Done,
    /// The text that the key holds.
    Text(Bytes),
    /// The count that the key holds. After an addition it is the new count.
    Count(i64),
    /// The pairs that a scan found, in the order of their keys.
    Pairs(PairList),
    /// The key holds a count and the request is for a text, or the other way round. Nothing has changed.
    WrongKind,
    /// The new count would be below -2^63 or above 2^63 - 1. Nothing has changed.
    Overflow,
    /// The new text would be longer than `MAX_TEXT` bytes. Nothing has changed.
    TooLong,
}
