/// How many keys a scan found, and how many bytes they have with their lengths, as C sees them.
#[repr(C)]
#[derive(Clone, Copy, Drop)]
pub struct KeyNumbers {
    pub count: usize,
    pub length: usize,
}
