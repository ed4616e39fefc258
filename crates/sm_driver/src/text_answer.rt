/// An answer as C sees it: whose request it is, its number, and the reply; of a text how many bytes it has.
#[repr(C)]
#[derive(Clone, Copy, Drop)]
pub struct TextAnswer {
    pub client: u64,
    pub number: u64,
    pub value: u64,
    pub length: usize,
    pub kind: u8,
}
