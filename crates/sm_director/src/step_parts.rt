/// A command, or the next step, as C sees it: its kind, and the shard and the server that it names, 0 for none.
#[repr(C)]
#[derive(Clone, Copy, PartialEq, Eq, Drop)]
pub struct StepParts {
    pub shard: u16,
    pub server: u16,
    pub kind: u8,
}
