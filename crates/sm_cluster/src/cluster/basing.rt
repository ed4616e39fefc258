//! Checkpoints, each by a new pass.
ghost use Rattle.std.specs.Prelude.{◌≡◌, ◌<◌};
ghost use Rattle.sm_cluster.specs.Basing.{HasBased, IsBasedBy};
ghost use Rattle.sm_cluster.specs.Clusters.{TellsMore};
ghost use Rattle.sm_calls.specs.Passes.{IsNewPass};

use super::Cluster;
use crate::hold_fault::HoldFault;
use sm_body::service::Service;
use sm_ranges::server_id::ServerId;
use sm_ranges::shard_id::ShardId;
use sm_rule::pass::Pass;
use sm_rule::permit::Front;
use sm_server::checkpoint;

impl<S: Service> Cluster<S> {
    /// Makes the shard's present state its base, under a direct admission of the server, so that the shard keeps no
    /// requests; or returns the first reason that applies. The admission uses a new pass, which has seen everything
    /// that the cluster told. The cluster then tells everything that the pass has seen.
    pub fn checkpoint(&mut self, k: ShardId, a: ServerId) -> Result<Front, HoldFault>
        ensures based { HasBased self.old k a result self.new }
        ensures unchanged { TellsMore self.old self.new }
    {
        if k.index() >= self.ground.board.count() as usize {
            return Err(HoldFault::UnknownShard);
        }
        if !self.control.desk().knows(a) {
            return Err(HoldFault::UnknownServer);
        }
        self.base(k, a)
    }

    // Does the same as `checkpoint`, if the shard and the server exist.
    fn base(&mut self, k: ShardId, a: ServerId) -> Result<Front, HoldFault>
        requires { k < self.old.control.chair.board.limits.count }
        ensures { IsBasedBy self.old k a result self.new }
    {
        let mut pass = self.pass_of(a);
        let made = checkpoint(&self.ground.board, &mut pass, k);
        self.ground.board.meet(&mut self.teller, pass.into_note());
        Ok(made?)
    }

    // Returns a new pass of the server, which has seen everything that the cluster told.
    pub(super) fn pass_of(&mut self, a: ServerId) -> Pass<S>
        ensures new { IsNewPass self.old.control.chair.board a self.old.told result }
        ensures unchanged { self.new ≡ self.old }
    {
        let note = self.ground.board.note(&mut self.teller);
        self.ground.pass_told(a, note)
    }
}
