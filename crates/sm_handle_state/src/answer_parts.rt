/// An answer but for its reply, as C sees it: the number of its envelope, how many requests of the shard were executed
/// before, and the server that executed it.
#[repr(C)]
#[derive(Clone, Copy, Drop)]
pub struct AnswerParts {
    pub number: u64,
    pub place: u64,
    pub server: u16,
}
