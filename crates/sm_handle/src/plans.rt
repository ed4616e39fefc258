//! Plans that handles keep.
ghost use Rattle.std.specs.Prelude.{◌≡◌, IfErr, IfOk, OnOk};
ghost use Rattle.sm_handle_state.specs.Plans.{HasNoMove, HasNoPlan, HasNotLeft, IsLeftOut, IsMove, IsPlanOf};

use crate::handle::Handle;
use sm_handle_state::ActFault;
use sm_handle_state::plans::{left_in, move_in, plan_of};
use sm_place::Move;
use sm_ranges::server_id::ServerId;
use sm_ranges::shard_id::ShardId;
use std::alloc::Global;

impl Handle {
    /// Keeps the plan of the other handle's control, in place of the earlier state: for the shards of the server, or,
    /// without a server, for the vacant ones. If there is a fault, returns it, and this handle is as it was. The other
    /// one is as it was.
    pub fn plan(
        &mut self,
        alloc: Global,
        chief: &mut Handle,
        from: Option<ServerId>,
    ) -> Result<(), ActFault>
        ensures chief { chief.new.owned.state ≡ chief.old.owned.state }
        ensures made { OnOk result (IsPlanOf chief.old.owned.state self.new.owned.state from) }
        ensures refused { IfErr result (HasNoPlan chief.old.owned.state from) }
        ensures kept { IfErr result (λ fault. self.new.owned.state ≡ self.old.owned.state) }
    {
        if !chief.full {
            return Err(ActFault::WrongHandle);
        }
        let made = plan_of(alloc, chief.owned.state_mut(), from)?;
        match self.keep(alloc, made) {
            Ok(()) => Ok(()),
            Err(_) => Err(ActFault::NoMemory),
        }
    }

    /// Returns the move at this place of the plan that the handle keeps.
    pub fn planned(&mut self, at: usize) -> Result<Move, ActFault>
        ensures found { IfOk result (IsMove self.old.owned.state at) }
        ensures refused { IfErr result (HasNoMove self.old.owned.state at) }
        ensures unchanged { self.new.owned.state ≡ self.old.owned.state }
    {
        if !self.full {
            return Err(ActFault::WrongHandle);
        }
        move_in(self.owned.state_mut(), at)
    }

    /// Returns the shard at this place of those that the plan that the handle keeps has no room for.
    pub fn left(&mut self, at: usize) -> Result<ShardId, ActFault>
        ensures found { IfOk result (IsLeftOut self.old.owned.state at) }
        ensures refused { IfErr result (HasNotLeft self.old.owned.state at) }
        ensures unchanged { self.new.owned.state ≡ self.old.owned.state }
    {
        if !self.full {
            return Err(ActFault::WrongHandle);
        }
        left_in(self.owned.state_mut(), at)
    }
}
