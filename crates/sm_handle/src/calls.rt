//! Calls on handles.
ghost use Rattle.std.specs.Prelude.{◌≡◌, IfErr, IfOk, OnOk, length};
ghost use Rattle.sm_foreign.specs.Refusals.{OpensNothing};
ghost use Rattle.sm_handle_state.specs.Acts.{AdmitsHandle, CommandsHandle, EndsHandle, GivesNoPass, HoldsNothing};
ghost use Rattle.sm_handle_state.specs.Acts.{IsPassOf, LooksNowhere, RefusesHandle, TellsToken, TellsWord};
ghost use Rattle.sm_handle.specs.Opening.{IsOpened};

use crate::handle::Handle;
use sm_desk::Command;
use sm_foreign::{Chief, Fence, Foreign, ForeignChief, OpenFault};
use sm_handle_state::{ActFault, HandleState, acts};
use sm_ownership::mode::Mode;
use sm_ranges::server_id::ServerId;
use sm_ranges::shard_id::ShardId;
use std::alloc::Global;

impl Handle {
    /// Keeps the control of a new board with a body for each number, of so many servers from 1 on, at most `ops` of
    /// which restart at once, with this fence, in place of the earlier state. If there is a fault, returns it, and the
    /// handle is as it was.
    pub fn open(
        &mut self,
        alloc: Global,
        numbers: &[u64],
        servers: u16,
        ops: u16,
        ceiling: u64,
        fence: Fence,
    ) -> Result<(), OpenFault>
        ensures made { OnOk result
            (IsOpened self.new.owned.state numbers.now servers ops ceiling fence.after) }
        ensures refused { IfErr result (OpensNothing (length numbers.now) servers ops ceiling) }
        ensures kept { IfErr result (λ fault. self.new.owned.state ≡ self.old.owned.state) }
    {
        let Ok(bodies) = Foreign::all(alloc, numbers) else {
            return Err(OpenFault::NoMemory);
        };
        let held = Chief::make(alloc, bodies, servers, ops, ceiling)?;
        match self.keep(alloc, HandleState::Chief(ForeignChief { held, fence })) {
            Ok(()) => Ok(()),
            Err(_) => Err(OpenFault::NoMemory),
        }
    }

    /// Admits the pass to the shard for a request that came so: the number of the shard's body, or why not.
    // It is inlined because two calls from C reach it, and a function call would pass the result through memory between
    // two atomic steps.
    #[inline(always)]
    pub fn admit(&mut self, k: ShardId, mode: Mode) -> Result<u64, ActFault>
        ensures admitted { IfOk result (AdmitsHandle self.old.owned.state self.new.owned.state k mode) }
        ensures refused { IfErr result (RefusesHandle self.old.owned.state self.new.owned.state k mode) }
    {
        if !self.full {
            return Err(ActFault::WrongHandle);
        }
        acts::admit(self.owned.state_mut(), k, mode)
    }

    /// Ends the admission of the pass: the shard's generation since then, or why not, and the handle is as it was.
    pub fn finish(&mut self) -> Result<u64, ActFault>
        ensures ended { IfOk result (EndsHandle self.old.owned.state self.new.owned.state) }
        ensures refused { IfErr result (λ fault. (fault ≡ ActFault.WrongHandle) × HoldsNothing self.old.owned.state) }
        ensures kept { IfErr result (λ fault. self.new.owned.state ≡ self.old.owned.state) }
    {
        if !self.full {
            return Err(ActFault::WrongHandle);
        }
        acts::finish(self.owned.state_mut())
    }

    /// Returns the fencing token of the admission of the pass, or why there is none. The handle is as it was.
    pub fn token(&mut self) -> Result<u64, ActFault>
        ensures told { IfOk result (TellsToken self.old.owned.state) }
        ensures refused { IfErr result (λ fault. (fault ≡ ActFault.WrongHandle) × HoldsNothing self.old.owned.state) }
        ensures unchanged { self.new.owned.state ≡ self.old.owned.state }
    {
        if !self.full {
            return Err(ActFault::WrongHandle);
        }
        acts::token(self.owned.state_mut())
    }

    /// Returns the word of the shard's record after all that the pass then has seen; or why not, and the handle is as
    /// it was.
    pub fn look(&mut self, k: ShardId) -> Result<u64, ActFault>
        ensures seen { IfOk result (TellsWord self.old.owned.state self.new.owned.state k) }
        ensures refused { IfErr result (LooksNowhere self.old.owned.state k) }
        ensures kept { IfErr result (λ fault. self.new.owned.state ≡ self.old.owned.state) }
    {
        if !self.full {
            return Err(ActFault::WrongHandle);
        }
        acts::look(self.owned.state_mut(), k)
    }

    /// Gives the command to the control: it is made, or refused by the first fault that applies.
    pub fn command(&mut self, command: Command) -> Result<(), ActFault>
        ensures answer { CommandsHandle self.old.owned.state self.new.owned.state command result }
    {
        if !self.full {
            return Err(ActFault::WrongHandle);
        }
        acts::command(self.owned.state_mut(), command)
    }

    /// Keeps a new pass on the board whose control the other handle keeps, with this server or none, in place of the
    /// earlier state. If there is a fault, returns it, and this handle is as it was. The other one is as it was.
    pub fn pass(
        &mut self,
        alloc: Global,
        chief: &mut Handle,
        server: Option<ServerId>,
    ) -> Result<(), ActFault>
        ensures chief { chief.new.owned.state ≡ chief.old.owned.state }
        ensures made { OnOk result (IsPassOf chief.old.owned.state self.new.owned.state server) }
        ensures refused { IfErr result (GivesNoPass chief.old.owned.state server) }
        ensures kept { IfErr result (λ fault. self.new.owned.state ≡ self.old.owned.state) }
    {
        if !chief.full {
            return Err(ActFault::WrongHandle);
        }
        let made = acts::pass(chief.owned.state_mut(), server)?;
        match self.keep(alloc, made) {
            Ok(()) => Ok(()),
            Err(_) => Err(ActFault::NoMemory),
        }
    }
}
