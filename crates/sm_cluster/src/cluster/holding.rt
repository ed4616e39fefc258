//! Admissions without a request, each by a new pass.
ghost use Rattle.std.specs.Prelude.{◌≡◌, IfErr, OnErr, OnOk};
ghost use Rattle.sm_cluster.specs.Clusters.{FreeRefused, HasFreed, HasHeld, HoldRefused};

use super::Cluster;
use crate::hold::Hold;
use crate::hold_fault::HoldFault;
use sm_body::service::Service;
use sm_ranges::server_id::ServerId;
use sm_ranges::shard_id::ShardId;

impl<S: Service> Cluster<S> {
    /// Makes the server admitted to the shard for a direct request that never comes, until the shard is freed or the
    /// cluster stopped; or returns the first fault that applies. The admission uses a new pass, which has seen
    /// everything that the cluster told. The cluster then tells everything that the pass has seen. It takes no memory.
    pub fn hold(&mut self, k: ShardId, a: ServerId) -> Result<(), HoldFault>
        ensures held { OnOk result (HasHeld self.old k a self.new) }
        ensures refused { IfErr result (λ fault. HoldRefused self.old k a fault self.new) }
    {
        if k.index() >= self.ground.board.count() as usize {
            return Err(HoldFault::UnknownShard);
        }
        if !self.control.desk().knows(a) {
            return Err(HoldFault::UnknownServer);
        }
        let pass = self.pass_of(a);
        match Hold::begin(&self.ground.board, pass, k, &mut self.teller) {
            Ok(hold) => {
                self.holds.put(&self.ground.board, k, hold);
                Ok(())
            }
            Err(refusal) => Err(HoldFault::Admit(refusal)),
        }
    }

    /// Ends the admission of a held shard without a request. If a fault applies, returns the first one. A shard that is
    /// admitted for a request isn't held. The cluster then tells of the end.
    pub fn free(&mut self, k: ShardId) -> Result<(), HoldFault>
        ensures freed { OnOk result (HasFreed self.old k self.new) }
        ensures refused { IfErr result (λ fault. FreeRefused self.old k fault) }
        ensures unchanged { OnErr result (self.new ≡ self.old) }
    {
        if k.index() >= self.ground.board.count() as usize {
            return Err(HoldFault::UnknownShard);
        }
        match self.holds.take(&self.ground.board, k) {
            Some(hold) => {
                let note = hold.end(&self.ground.board);
                self.ground.board.meet(&mut self.teller, note);
                Ok(())
            }
            None => Err(HoldFault::NotHeld),
        }
    }
}
