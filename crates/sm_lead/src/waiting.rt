//! The servers for which a control waits, by the acks that it has read.

ghost use Rattle.std.specs.Prelude.{◌≡◌, ◌<◌, length};
ghost use Rattle.sm_lead.specs.Waits.{has_waited, is_paused_for, is_prepared, lets_go, lets_paused_go, may_stop};
ghost use Rattle.sm_lead.specs.Waits.{prepared_of};

use crate::ack_read::{AckRead, acked_in};
use crate::record_read::read_at;
use crate::stepping::is_failed;
use crate::store_control::{StoreControl, state_of};
use sm_desk::Command;
use sm_ranges::server_id::ServerId;
use sm_ranges::shard_id::ShardId;
use sm_ranges::stand::Stand;
use sm_store::{has_let_go, waits_for};

impl StoreControl {
    /// Returns whether the server has acked the shard's record, as far as was read, or has failed; `true` if the
    /// control doesn't wait.
    pub fn lets_go(&self, acks: &[AckRead], shard: ShardId, server: ServerId) -> bool
        ensures { result ≡ lets_go self.now acks.now shard server }
    {
        let state = read_at(&self.records, shard).state;
        let failed = is_failed(state_of(&self.desk, server));
        !self.waits || has_let_go(&state, acked_in(acks, shard.index(), server), failed)
    }

    /// Returns whether the server has let go of all that is paused for it, as it must before it is stopped: it has
    /// acked each of those records, as far as was read, or has failed; `true` if the control doesn't wait.
    pub fn may_stop(&self, acks: &[AckRead], server: ServerId) -> bool
        ensures { result ≡ may_stop self.now acks.now server }
    {
        let mut let_go = true;
        for shard in 0..self.records.len() {
            let_go = let_go && self.lets_paused_go(acks, server, shard);
        }
        let_go
    }

    // Whether the server has let go of the shard of this number, if that is paused for it.
    fn lets_paused_go(&self, acks: &[AckRead], server: ServerId, shard: usize) -> bool
        requires { shard < length self.now.records.items }
        ensures { result ≡ lets_paused_go self.now acks.now server shard }
    {
        let state = self.records[shard].state;
        if !is_paused_for(server, state.stand) || !self.waits {
            return true;
        }
        let failed = is_failed(state_of(&self.desk, server));
        has_let_go(&state, acked_in(acks, shard, server), failed)
    }

    /// Returns whether the next owner has acked the record of a prepared shard, or has failed; `true` if the control
    /// doesn't wait.
    pub fn is_prepared(&self, acks: &[AckRead], shard: ShardId) -> bool
        ensures { result ≡ is_prepared self.now acks.now shard }
    {
        match prepared_of(read_at(&self.records, shard).state.stand) {
            Some(next) => self.lets_go(acks, shard, next),
            None => true,
        }
    }

    /// Returns whether the server that the command waits for has acked the record, or has failed. If the control waits,
    /// commands wait for a server that are `AddShard`, `Reassign`, `Cancel` once the shard forwards, or `Stopped`.
    pub fn has_waited(&self, acks: &[AckRead], command: &Command) -> bool
        ensures { result ≡ has_waited self.now acks.now command.now }
    {
        match command {
            Command::Change(shard, change) => {
                let stand = read_at(&self.records, *shard).state.stand;
                match waits_for(stand, *change) {
                    Some(server) => self.lets_go(acks, *shard, server),
                    None => true,
                }
            }
            Command::Stopped(server) => self.may_stop(acks, *server),
            Command::Ask(_) | Command::Approve(_) | Command::Back(_) | Command::Fail(_) => true,
        }
    }
}

// Returns whether a shard with this stand is paused, and the server owns it.
fn is_paused_for(server: ServerId, stand: Stand) -> bool
    ensures { result ≡ is_paused_for server stand }
{
    match stand {
        Stand::Paused(owner) => owner == server,
        Stand::Vacant
        | Stand::Serving(_)
        | Stand::Prepared { .. }
        | Stand::Forwarding { .. }
        | Stand::Taken { .. } => false,
    }
}

// The next owner of a shard that is prepared for it.
fn prepared_of(stand: Stand) -> Option<ServerId>
    ensures { result ≡ prepared_of stand }
{
    match stand {
        Stand::Prepared { next, .. } => Some(next),
        Stand::Vacant
        | Stand::Serving(_)
        | Stand::Forwarding { .. }
        | Stand::Taken { .. }
        | Stand::Paused(_) => None,
    }
}
