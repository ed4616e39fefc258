ghost use Rattle.std.specs.Prelude.{◌≡◌};

mod basing;
mod commanding;
mod counting;
mod holding;
mod starting;
mod stopping;
mod telling;

use crate::crew::Crew;
use crate::holds::Holds;
use sm_body::service::Service;
use sm_calls::{Ground, Message, Network};
use sm_control::Control;
use sm_desk::Desk;
use sm_publish::Publisher;
use sm_ranges::layout::Layout;
use sm_rule::pass::Pass;
use std::marker::Model;
use std::sync::Arc;

/// Servers as threads over one board, with its control and the published map. It must be stopped, because it can't be
/// dropped.
///
/// Its calls take it by `&mut`, so that contracts can state each call's effect. Callers on several threads must put it
/// under a lock.
pub struct Cluster<S: Service> {
    ground: Arc<Ground<S>>,
    network: Arc<Network<Message<S>>>,
    control: Control<S>,
    publisher: Publisher,
    holds: Holds<S>,
    // A pass without a server, which has seen the effects of the calls.
    teller: Pass<S>,
    crew: Crew,
}

impl<S: Service> Model for Cluster<S> {
    ghost use Rattle.std.specs.Prelude.{◌≡◌};
    ghost use Rattle.std.specs.Arc.{arc_value};
    ghost use Rattle.sm_cluster.specs.Clusters.{ClusterValue};
    ghost use Rattle.sm_cluster.specs.Holding.{AreHoldsOn};
    ghost use Rattle.sm_cluster.specs.Passes.{IsTeller};

    ghost Value = { ClusterValue S.Request };

    ghost view = { λ cluster. record {
      control = cluster.control;
      map = cluster.publisher;
      bounds = (arc_value cluster.ground).layout;
      holds = cluster.holds;
      told = cluster.teller.seen;
      teams = cluster.crew;
    } };

    ghost invariant = { λ cluster. (cluster.control.chair.board ≡ (arc_value cluster.ground).board)
        × AreHoldsOn (arc_value cluster.ground).board cluster.holds
        × IsTeller (arc_value cluster.ground).board cluster.control.chair.seen cluster.teller };
}

impl<S: Service> Cluster<S> {
    /// Returns the control's desk.
    pub fn desk(&self) -> &Desk
        ensures { result.now ≡ self.now.control.desk }
    {
        self.control.desk()
    }

    /// Returns which shard a key belongs to.
    pub fn layout(&self) -> &Layout
        ensures { result.now ≡ self.now.bounds }
    {
        &self.ground.layout
    }
}
