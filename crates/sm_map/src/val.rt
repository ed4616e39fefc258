/// A key's value.
#[derive(Clone, Copy, PartialEq, Eq, Debug)]
pub enum Val<'a> {
    /// The bytes of a text.
    Text(&'a [u8]),
    /// A count.
    Count(i64),
}
