//! Plans over the desk's books, and routes.
ghost use Rattle.std.specs.Prelude.{◌≡◌, Err, IfOk, IsOkUnless, None, Some, false, true};
ghost use Rattle.sm_place.specs.Plans.{KeepsRoom, assign_plan, drain_plan, servers_but, shards_to_move};
ghost use Rattle.sm_desk.specs.Desk.{is_known};
ghost use Rattle.sm_control.specs.Routes.{Routed, route_fault};

use super::Control;
use crate::drain_fault::DrainFault;
use sm_body::service::Service;
use sm_ownership::route::Route;
use sm_ownership::route_fault::RouteFault;
use sm_place::Plan;
use sm_ranges::server_id::ServerId;
use sm_ranges::shard_id::ShardId;
use sm_rule::Board;
use std::alloc::{AllocError, Global};

impl<S: Service> Control<S> {
    /// Returns a plan in which each vacant shard, by number, goes to the lowest-numbered server on which it fits, with
    /// earlier moves counted as made. The shards that fit on no server in their turn are left.
    pub fn plan_assign(&self, alloc: Global) -> Result<Plan, AllocError>
        ensures plan { IfOk result (λ plan. plan ≡ assign_plan self.now.desk.books) }
        ensures keeps_room { let books = self.now.desk.books in
            IfOk result (λ plan. KeepsRoom books (shards_to_move None books.shards)
            (servers_but None books.servers) plan.moves plan.left) }
    {
        self.desk.books().plan_assign(alloc)
    }

    /// Returns a plan in which each shard that the server serves, by number, goes to the lowest-numbered other server
    /// on which it fits, with earlier moves counted as made; or returns the first fault that applies. A shard that
    /// names the server in another stand is not in the plan.
    pub fn plan_drain(&self, alloc: Global, a: ServerId) -> Result<Plan, DrainFault>
        ensures plan { IfOk result (λ plan. plan ≡ drain_plan self.now.desk.books a) }
        ensures keeps_room { let books = self.now.desk.books in
            IfOk result (λ plan. KeepsRoom books (shards_to_move (Some a) books.shards)
            (servers_but (Some a) books.servers) plan.moves plan.left) }
        ensures unknown { is_known self.now.desk.books.servers a ≡ false → result ≡ Err DrainFault.UnknownServer }
        ensures known { is_known self.now.desk.books.servers a ≡ true → IsOkUnless result DrainFault.NoMemory }
    {
        if !self.desk.knows(a) {
            return Err(DrainFault::UnknownServer);
        }
        Ok(self.desk.books().plan_drain(alloc, a)?)
    }

    /// Returns the shard's owner, and its generation in all that the chair then has seen; or the first reason for which
    /// it has no route.
    pub fn route(&mut self, board: &Board<S>, k: ShardId) -> Result<Route, RouteFault>
        requires { self.old.chair.board ≡ board.now }
        ensures answer { Routed (route_fault self.old.desk.books k) self.old self.new k result }
        ensures board { self.new.chair.board ≡ self.old.chair.board }
    {
        if k.index() >= self.desk.books().shards().len() {
            return Err(RouteFault::UnknownShard);
        }
        let Some(server) = self.chair.stand(k).owner() else {
            return Err(RouteFault::WrongPhase);
        };
        let generation = board.look_chair(&mut self.chair, k).generation;
        Ok(Route {
            shard: k,
            server,
            generation,
        })
    }
}
