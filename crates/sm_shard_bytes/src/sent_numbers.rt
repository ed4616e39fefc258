/// The numbers of a server's transaction, as C sees them: the revisions of the record and of the head that it compares,
/// the number of the batch that it writes, 0 for none, and how many bytes it writes to the head, 0 if it doesn't, and
/// to the batch.
#[repr(C)]
#[derive(Clone, Copy, Drop)]
pub struct SentNumbers {
    pub stood: u64,
    pub logged: u64,
    pub number: u64,
    pub head_length: usize,
    pub batch_length: usize,
}
