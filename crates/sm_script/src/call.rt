use crate::load_clients::LoadClients;
use sm_desk::command::Command;
use sm_ownership::change::Change;
use sm_ranges::key::Key;
use sm_ranges::server_id::ServerId;
use sm_ranges::shard_id::ShardId;
use sm_service::request::Request;

/// The call that a line of a script asks for.
#[derive(Drop)]
pub enum Call {
    /// A command of the control: `assign K A`, `drop K` and the other changes of a shard, `ask A` and the other steps
    /// of a server's restart.
    Control(Command),
    /// `hold K A`: the server is admitted to the shard without a request.
    Hold(ShardId, ServerId),
    /// `free K`: that admission ends.
    Free(ShardId),
    /// `checkpoint K A`: the server makes the shard's present state its base, and the shard keeps no request.
    Checkpoint(ShardId, ServerId),
    /// `publish K`: the shard's owner becomes its published route.
    Publish(ShardId),
    /// `route KEY`: the published route of the key's shard.
    Route(Key),
    /// `look K`: the shard's record.
    Look(ShardId),
    /// `load KEY C N`: a number of clients, `C`, add to the key's count at the same time, `N` times each.
    Load {
        key: Key,
        clients: LoadClients,
        each: u16,
    },
    /// `place`: a plan for the shards without an owner.
    Place,
    /// `drain A`: a plan for the shards that the server serves.
    Drain(ServerId),
    /// A request, to the owner in the record of its key's shard.
    Request(Request),
    /// `at A REQUEST`: a request, to this server.
    RequestAt(ServerId, Request),
    /// `client REQUEST`: a request, by the published route of its key's shard.
    RequestByRoute(Request),
}

impl Call {
    ghost use Rattle.std.specs.Prelude.{◌≡◌};
    ghost use Rattle.sm_script.specs.Lines.{change_call};

    /// Returns a change of the shard.
    pub(crate) fn change(shard: ShardId, change: Change) -> Call
        ensures { result ≡ change_call shard change }
    {
        Call::Control(Command::Change(shard, change))
    }
}
