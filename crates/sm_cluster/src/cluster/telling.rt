//! The history that a cluster tells.
ghost use Rattle.std.specs.Prelude.{◌≡◌};
ghost use Rattle.sm_rule.specs.Passes.{PassLooks};
ghost use Rattle.sm_rule.specs.Views.{Begins};
ghost use Rattle.sm_cluster.specs.Clusters.{HasTold};

use super::Cluster;
use sm_body::service::Service;
use sm_calls::Client;
use sm_control::Control;
use sm_rule::board::Board;
use sm_rule::pass::Pass;

impl<S: Service> Cluster<S> {
    /// Tells a client of the same board the effects of the cluster's calls. The client has then seen everything that
    /// the control has seen, and the entries by which each hold, each checkpoint and each end of a hold was made or
    /// refused.
    pub fn tell(&mut self, client: &mut Client<S>)
        requires { client.old.pass.board ≡ self.old.control.chair.board }
        ensures told { HasTold self.old client.old client.new }
        ensures unchanged { self.new ≡ self.old }
    {
        let note = self.ground.board.note(&mut self.teller);
        client.hear(note);
    }
}

/// Tells the teller everything that the control has seen.
pub(super) fn report<S: Service>(board: &Board<S>, control: &mut Control<S>, teller: &mut Pass<S>)
    requires control { control.old.chair.board ≡ board.now }
    requires teller { teller.old.board ≡ board.now }
    ensures unchanged { control.new ≡ control.old }
    ensures looks { PassLooks teller.old teller.new }
    ensures told { Begins control.old.chair.seen teller.new.seen }
{
    let note = control.note(board);
    board.meet(teller, note);
}
