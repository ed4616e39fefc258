ghost use Rattle.std.specs.Prelude.{◌≡◌};
ghost use Rattle.sm_store.specs.Waits.{gives_up, has_let_go};

use sm_ownership::change::Change;
use sm_ownership::record::Record;
use sm_ranges::server_id::ServerId;
use sm_ranges::stand::Stand;

/// Returns the server that must let go before the change of a record with this stand, because a process of it may
/// execute by that record.
pub fn waits_for(stand: Stand, change: Change) -> Option<ServerId>
    ensures { result ≡ gives_up stand change }
{
    match stand {
        Stand::Forwarding { owner, next } => match change {
            Change::AddShard => Some(owner),
            Change::Cancel => Some(next),
            Change::Assign(_)
            | Change::PrepareAddShard(_)
            | Change::PrepareDropShard
            | Change::DropShard
            | Change::Pause
            | Change::Resume
            | Change::Reassign(_) => None,
        },
        Stand::Paused(owner) => match change {
            Change::Reassign(_) => Some(owner),
            Change::Assign(_)
            | Change::PrepareAddShard(_)
            | Change::PrepareDropShard
            | Change::AddShard
            | Change::DropShard
            | Change::Cancel
            | Change::Pause
            | Change::Resume => None,
        },
        Stand::Vacant | Stand::Serving(_) | Stand::Prepared { .. } | Stand::Taken { .. } => None,
    }
}

/// Returns whether that server has let go of the record: it acked up to this generation, or failed.
pub fn has_let_go(state: &Record, acked: u64, failed: bool) -> bool
    ensures { result ≡ has_let_go state.now acked failed }
{
    state.generation <= acked || failed
}
