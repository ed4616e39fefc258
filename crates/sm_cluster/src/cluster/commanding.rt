//! Commands, plans and publications.
ghost use Rattle.std.specs.Prelude.{◌≡◌, Err, IfOk, IsOkUnless, None, Some, false, true};
ghost use Rattle.sm_desk.specs.Desk.{is_known};
ghost use Rattle.sm_place.specs.Plans.{KeepsRoom, assign_plan, drain_plan, servers_but, shards_to_move};
ghost use Rattle.sm_rule.specs.Views.{Begins};
ghost use Rattle.sm_cluster.specs.Commands.{HasCommanded};
ghost use Rattle.sm_cluster.specs.Publications.{HasPublished};

use super::Cluster;
use super::telling::report;
use sm_body::service::Service;
use sm_control::DrainFault;
use sm_desk::{Command, CommandFault, Desk};
use sm_ownership::route::Route;
use sm_ownership::route_fault::RouteFault;
use sm_place::Plan;
use sm_ranges::server_id::ServerId;
use sm_ranges::shard_id::ShardId;
use std::alloc::{AllocError, Global};
use std::sync::Wait;

impl<S: Service> Cluster<S> {
    /// Makes the command, or returns the first fault that applies. A server's door shuts if it failed or was stopped,
    /// and opens if it is back. The cluster then tells everything that the control has seen.
    pub fn command(&mut self, command: Command) -> Result<(), CommandFault>
        ensures commanded { HasCommanded self.old command result self.new }
        ensures board { self.new.control.chair.board ≡ self.old.control.chair.board }
        ensures told { Begins self.new.control.chair.seen self.new.told }
    {
        let made = self.control.command(&self.ground.board, command);
        report(&self.ground.board, &mut self.control, &mut self.teller);
        match made {
            Ok(()) => {
                self.network
                    .set_door(door_after(&command, self.control.desk()));
                self.network.counters.count_command(&command);
                Ok(())
            }
            Err(fault) => Err(fault),
        }
    }

    /// Publishes the shard's owner and its generation, and returns that route; or returns why there is none, or why it
    /// isn't published. It may wait for clients that are reading. The cluster then tells everything that the control
    /// has seen.
    pub fn publish<R: Wait>(&mut self, rt: &R, k: ShardId) -> Result<Route, RouteFault>
        ensures published { HasPublished self.old k result self.new }
        ensures told { Begins self.new.control.chair.seen self.new.told }
    {
        let Route {
            shard,
            server,
            generation,
        } = self.control.route(&self.ground.board, k)?;
        report(&self.ground.board, &mut self.control, &mut self.teller);
        let published = Route {
            shard,
            server,
            generation,
        };
        self.publisher.publish(rt, published)?;
        Ok(Route {
            shard,
            server,
            generation,
        })
    }

    /// Returns a plan in which each vacant shard, by number, goes to the lowest-numbered server on which it fits, with
    /// earlier moves counted as made. The shards that fit on no server in their turn are left.
    pub fn plan_assign(&self, alloc: Global) -> Result<Plan, AllocError>
        ensures plan { IfOk result (λ plan. plan ≡ assign_plan self.now.control.desk.books) }
        ensures keeps_room { let books = self.now.control.desk.books in
            IfOk result (λ plan. KeepsRoom books (shards_to_move None books.shards)
            (servers_but None books.servers) plan.moves plan.left) }
    {
        self.control.plan_assign(alloc)
    }

    /// Returns a plan in which each shard that the server serves, by number, goes to the lowest-numbered other server
    /// on which it fits, with earlier moves counted as wholly migrated; or returns the first fault that applies.
    pub fn plan_drain(&self, alloc: Global, a: ServerId) -> Result<Plan, DrainFault>
        ensures plan { IfOk result (λ plan. plan ≡ drain_plan self.now.control.desk.books a) }
        ensures keeps_room { let books = self.now.control.desk.books in
            IfOk result (λ plan. KeepsRoom books (shards_to_move (Some a) books.shards)
            (servers_but (Some a) books.servers) plan.moves plan.left) }
        ensures unknown { is_known self.now.control.desk.books.servers a ≡ false
            → result ≡ Err DrainFault.UnknownServer }
        ensures known { is_known self.now.control.desk.books.servers a ≡ true → IsOkUnless result DrainFault.NoMemory }
    {
        self.control.plan_drain(alloc, a)
    }
}

// The door of the server that the command names for a restart, and whether it is open: whether the desk, after the
// command, has requests reach that server.
fn door_after(command: &Command, desk: &Desk) -> Option<(ServerId, bool)> {
    match command {
        Command::Change(_, _) => None,
        Command::Ask(a)
        | Command::Approve(a)
        | Command::Stopped(a)
        | Command::Back(a)
        | Command::Fail(a) => Some((*a, desk.reaches(*a))),
    }
}
