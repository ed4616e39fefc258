use sm_place::ServerState;

/// How far a server's restart has come, and the process of the server that this state names.
#[derive(Clone, Copy, PartialEq, Eq, Drop)]
pub struct ServerRun {
    pub state: ServerState,
    /// The process that ran the server, or 0 if none was named.
    pub process: u64,
}
