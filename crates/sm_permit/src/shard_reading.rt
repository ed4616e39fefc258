ghost use Rattle.std.specs.Prelude.{◌≡◌};
ghost use Rattle.sm_permit.specs.Views.{ack_frees, hand_over_frees};

use crate::hand_over::HandOver;
use sm_ownership::record::Record;
use sm_ranges::server_id::ServerId;
use sm_ranges::stand::Stand;

/// Everything that a process read of a shard, all at one revision of the store.
#[derive(Clone, Copy, Drop)]
pub struct ShardReading {
    /// A revision that the store had reached when it was read.
    pub revision: u64,
    /// The shard's record.
    pub state: Record,
    /// Whether the process's own server has failed, as its state says.
    pub failed: bool,
    /// The revision at which the process of the record's owner put that server's key there, or 0 if there is no such
    /// key.
    pub owner_joined: u64,
    /// Whether the record's owner has failed.
    pub owner_failed: bool,
}

impl ShardReading {
    /// Returns whether an ack of the server up to this generation frees the shard by the record.
    pub(crate) fn ack_frees(&self, server: ServerId, generation: u64) -> bool
        ensures { result ≡ ack_frees self.now server generation }
    {
        match self.state.stand {
            Stand::Forwarding { owner, .. } => owner == server
                && self.state.generation <= generation,
            Stand::Vacant
            | Stand::Serving(_)
            | Stand::Prepared { .. }
            | Stand::Taken { .. }
            | Stand::Paused(_) => false,
        }
    }

    /// Returns whether these bytes, if they were handed over, free the shard: they must name the process whose key was
    /// read.
    pub(crate) fn hand_over_frees(&self, hand: HandOver) -> bool
        ensures { result ≡ hand_over_frees self.now hand }
    {
        self.ack_frees(hand.server, hand.generation)
            && 0 < hand.joined
            && hand.joined == self.owner_joined
    }
}
