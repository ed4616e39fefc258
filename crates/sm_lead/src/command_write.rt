ghost use Rattle.std.specs.Prelude.{◌≡◌};
ghost use Rattle.sm_lead.specs.Commands.{absent_of};

use sm_ownership::change::Change;
use sm_ownership::record::Record;
use sm_place::ServerState;
use sm_ranges::server_id::ServerId;
use sm_ranges::shard_id::ShardId;
use sm_store::server_run::ServerRun;

/// The write of a command to the store.
#[derive(Clone, Copy, Drop)]
pub enum CommandWrite {
    /// The shard's next record, by this change.
    Record {
        shard: ShardId,
        change: Change,
        next: Record,
    },
    /// The server's state, and the process that it names.
    State {
        server: ServerId,
        run: ServerRun,
    },
}

impl CommandWrite {
    /// Returns the server whose key must be absent: one that is declared failed, because it may be back by then.
    pub fn absent(&self) -> Option<ServerId>
        ensures { result ≡ absent_of self.now }
    {
        match *self {
            CommandWrite::Record { .. } => None,
            CommandWrite::State { server, run } => match run.state {
                ServerState::Failed => Some(server),
                ServerState::Up
                | ServerState::Asked
                | ServerState::Approved
                | ServerState::Stopped => None,
            },
        }
    }
}
