//! Publishers of routes, and their routers, that handles keep.
ghost use Rattle.std.specs.Prelude.{◌≡◌, ◌<◌, ◌≤◌, IfErr, IfOk, OnErr, OnOk};
ghost use Rattle.sm_ownership.specs.declared.record.TheConstants.{MAX_GENERATION};
ghost use Rattle.sm_handle_state.specs.Routes.{GivesNoRouter, IsNewPublisher, IsRouterOf, KeepsNoRouter};
ghost use Rattle.sm_handle_state.specs.Routes.{PublishesRoute, ReadsHandleRoute, RefusesRoute};

use crate::handle::Handle;
use sm_handle_state::routes::{publish_in, route_in, router_of};
use sm_handle_state::{ActFault, HandleState, PublishFault};
use sm_ownership::route::Route;
use sm_publish::WordPublisher;
use sm_ranges::shard_id::ShardId;
use std::alloc::{AllocError, Global};

impl Handle {
    /// Keeps a new publisher of routes for so many shards, none of which has a route, in place of the earlier state. It
    /// fails only if memory is refused, and then the handle is as it was.
    pub fn publisher(&mut self, alloc: Global, count: usize) -> Result<(), AllocError>
        requires { 0 < count }
        ensures made { OnOk result (IsNewPublisher self.new.owned.state count) }
        ensures kept { OnErr result (self.new.owned.state ≡ self.old.owned.state) }
    {
        let publisher = WordPublisher::new(alloc, count)?;
        self.keep(alloc, HandleState::Publisher(publisher))
    }

    /// Keeps a router of the other handle's publisher, which has seen everything that was published, in place of the
    /// earlier state. If there is a fault, returns it, and this handle is as it was. The other one is as it was.
    pub fn router(&mut self, alloc: Global, publisher: &mut Handle) -> Result<(), ActFault>
        ensures publisher { publisher.new.owned.state ≡ publisher.old.owned.state }
        ensures made { OnOk result (IsRouterOf publisher.old.owned.state self.new.owned.state) }
        ensures refused { IfErr result (GivesNoRouter publisher.old.owned.state) }
        ensures kept { IfErr result (λ fault. self.new.owned.state ≡ self.old.owned.state) }
    {
        if !publisher.full {
            return Err(ActFault::WrongHandle);
        }
        let made = router_of(publisher.owned.state_mut())?;
        match self.keep(alloc, made) {
            Ok(()) => Ok(()),
            Err(_) => Err(ActFault::NoMemory),
        }
    }

    /// Publishes the route; or says why not, and the handle is as it was.
    pub fn publish(&mut self, route: Route) -> Result<(), PublishFault>
        requires { route.generation ≤ MAX_GENERATION }
        ensures published { OnOk result (PublishesRoute self.old.owned.state self.new.owned.state route) }
        ensures refused { IfErr result (RefusesRoute self.old.owned.state route) }
        ensures kept { IfErr result (λ fault. self.new.owned.state ≡ self.old.owned.state) }
    {
        if !self.full {
            return Err(PublishFault::WrongHandle);
        }
        publish_in(self.owned.state_mut(), route)
    }

    /// Returns the shard's route that was published last of those that the router has then seen, if any; or says why
    /// not, and the handle is as it was.
    #[inline(always)]
    pub fn route(&mut self, shard: ShardId) -> Result<Option<Route>, ActFault>
        ensures read { IfOk result (ReadsHandleRoute self.old.owned.state self.new.owned.state shard) }
        ensures refused { IfErr result (λ fault. (fault ≡ ActFault.WrongHandle) × KeepsNoRouter self.old.owned.state) }
        ensures kept { IfErr result (λ fault. self.new.owned.state ≡ self.old.owned.state) }
    {
        if !self.full {
            return Err(ActFault::WrongHandle);
        }
        route_in(self.owned.state_mut(), shard)
    }
}
