/// The numbers of a part of the base that a server makes, as C sees them: how many batches the base replaces, which is
/// its number, how many parts it has, and how many bytes this part has.
#[repr(C)]
#[derive(Clone, Copy, Drop)]
pub struct PartNumbers {
    pub number: u64,
    pub count: u64,
    pub length: usize,
}
