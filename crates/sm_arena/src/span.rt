/// The location of a piece in the arena that placed it. It takes 12 bytes.
#[derive(Clone, Copy, PartialEq, Eq)]
pub struct Span {
    pub(crate) chunk: u32,
    pub(crate) start: u32,
    pub(crate) length: u32,
}
