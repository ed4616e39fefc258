ghost use Rattle.std.specs.Prelude.{◌≡◌};
ghost use Rattle.sm_lead.specs.Waits.{acked_in};

use sm_ranges::server_id::ServerId;
use sm_ranges::shard_id::ShardId;

/// The generation up to which a server was read to have acked a shard's records.
#[derive(Clone, Copy, Drop)]
pub struct AckRead {
    pub shard: ShardId,
    pub server: ServerId,
    pub generation: u64,
}

/// Returns the generation up to which the server has acked the shard of this number, as far as was read; 0 if it
/// hasn't.
pub(crate) fn acked_in(acks: &[AckRead], shard: usize, server: ServerId) -> u64
    ensures { result ≡ acked_in acks.now shard server }
{
    let found = acks
        .iter()
        .find(|ack| ack.shard.index() == shard && ack.server == server);
    match found {
        Some(ack) => ack.generation,
        None => 0,
    }
}
