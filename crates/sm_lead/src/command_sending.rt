use crate::command_write::CommandWrite;
use sm_ranges::server_id::ServerId;

/// A transaction for the store. It compares the election, the key of commands, and, if a server is declared failed, the
/// absence of its key. It writes the key of commands and the command's result.
#[derive(Clone, Copy, Drop)]
pub struct CommandSending {
    pub process: u64,
    /// The revision of the control's election.
    pub elected: u64,
    /// The revision of the key of commands that was read.
    pub placed: u64,
    /// The server whose key isn't there, if it compares that.
    pub absent: Option<ServerId>,
    pub write: CommandWrite,
}
