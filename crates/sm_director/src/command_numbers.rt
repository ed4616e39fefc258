/// The numbers of a command's transaction, as C sees them: the revisions of the leader's key and of the key of commands
/// that it compares, how many bytes it writes to the record of a shard or the state of a server, which one that is, how
/// many it writes to the key of commands, and the server whose key must be absent, 0 for none.
#[repr(C)]
#[derive(Clone, Copy, Drop)]
pub struct CommandNumbers {
    pub elected: u64,
    pub placed: u64,
    pub length: usize,
    pub commands_length: usize,
    pub number: u16,
    pub absent: u16,
    pub is_state: bool,
}
