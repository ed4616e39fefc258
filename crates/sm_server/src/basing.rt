//! A checkpoint of a shard.
ghost use Rattle.std.specs.Prelude.{◌≡◌, ◌<◌, [], None, IfErr, IfOk, OnOk};
ghost use Rattle.sm_ownership.specs.History.{kept};
ghost use Rattle.sm_rule.specs.Passes.{record_of};
ghost use Rattle.sm_server.specs.Basing.{CheckpointRefused, HasMadeCheckpoint};

use crate::checkpoint_fault::CheckpointFault;
use sm_body::service::Service;
use sm_ownership::mode::Mode;
use sm_ranges::shard_id::ShardId;
use sm_rule::board::Board;
use sm_rule::pass::Pass;
use sm_rule::permit::Front;

/// Makes the shard's present state its base, under a direct admission of the pass, so that the shard keeps no request;
/// or answers why not: the admission's fault, or that memory was refused and the admission ended with nothing.
pub fn checkpoint<S: Service>(
    board: &Board<S>,
    pass: &mut Pass<S>,
    k: ShardId,
) -> Result<Front, CheckpointFault>
    requires board { pass.old.board ≡ board.now }
    requires shard { k < board.now.limits.count }
    requires free { pass.old.held ≡ None }
    ensures made { OnOk result (HasMadeCheckpoint pass.old k pass.new) }
    ensures kept { OnOk result (kept pass.new.seen k ≡ []) }
    ensures refused { IfErr result (λ fault. CheckpointRefused pass.old k pass.new fault) }
    ensures board { pass.new.board ≡ pass.old.board }
    ensures free { pass.new.held ≡ None }
    ensures shard { IfOk result (λ front. front.shard ≡ k) }
    ensures generation { IfOk result (λ front. front.generation ≡ (record_of pass.new k).generation) }
{
    let permit = match board.admit(pass, k, Mode::Direct) {
        Ok(permit) => permit,
        Err(refusal) => return Err(CheckpointFault::Admit(refusal)),
    };
    let (made, front) = board.checkpoint(pass, permit);
    match made {
        Ok(()) => Ok(front),
        Err(_) => Err(CheckpointFault::NoMemory),
    }
}
