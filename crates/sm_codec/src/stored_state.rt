use sm_store::server_run::ServerRun;

/// The value of a server's state: the state with the process of the server that it names, and the process whose command
/// led to it.
#[derive(Clone, Copy, PartialEq, Eq, Drop)]
pub struct StoredState {
    pub run: ServerRun,
    pub process: u64,
}
