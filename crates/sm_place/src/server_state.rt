ghost use Rattle.std.specs.Prelude.{◌≡◌};
ghost use Rattle.sm_place.specs.ServerState.{is_leaving, is_unreached};

/// How far the restart of a server has come.
#[derive(Clone, Copy, PartialEq, Eq, Drop)]
pub enum ServerState {
    /// The server runs.
    Up,
    /// The server runs, and its restart was asked for.
    Asked,
    /// The restart was approved, and the server may still run.
    Approved,
    /// The server was stopped for its restart.
    Stopped,
    /// The server failed.
    Failed,
}

impl ServerState {
    /// Returns whether the server takes no more shards, because it was approved to restart, is stopped or failed.
    pub fn is_leaving(&self) -> bool
        ensures { result ≡ is_leaving self.now }
    {
        match *self {
            ServerState::Up | ServerState::Asked => false,
            ServerState::Approved | ServerState::Stopped | ServerState::Failed => true,
        }
    }

    /// Returns whether no requests reach the server, because it is stopped or failed.
    pub fn is_unreached(&self) -> bool
        ensures { result ≡ is_unreached self.now }
    {
        matches!(*self, ServerState::Stopped | ServerState::Failed)
    }
}
