//! Maps of the sample service that handles keep.
ghost use Rattle.std.specs.Prelude.{◌≡◌, IfErr, IfOk, OnOk};
ghost use Rattle.sm_handle_state.specs.Maps.{HoldsKeys, IsEmptyMap, KeepsNoMap, MakesNoReply};
ghost use Rattle.sm_handle_state.specs.Maps.{MakesReply, Replied, WritesHeld};
ghost use Rattle.sm_service.specs.LentRequest.{request_lent};

use crate::handle::Handle;
use sm_body::machine::Machine;
use sm_handle_state::maps::{len_of, reply_of, value_in};
use sm_handle_state::{ActFault, HandleState, ReplyParts};
use sm_service::{KeyMachine, LentRequest, Reply};
use std::alloc::{AllocError, Global};

impl Handle {
    /// Keeps an empty map, in place of the earlier state. It fails only if memory is refused, and then the handle is as
    /// it was.
    pub fn map(&mut self, alloc: Global) -> Result<(), AllocError>
        ensures made { OnOk result (IsEmptyMap self.new.owned.state) }
        ensures refused { IfErr result (λ fault. self.new.owned.state ≡ self.old.owned.state) }
    {
        let map = Box::new(alloc, KeyMachine::new(alloc))?;
        self.keep(alloc, HandleState::Map(map))
    }

    /// Returns how many keys of the map that the handle keeps hold something.
    pub fn map_len(&mut self) -> Result<u128, ActFault>
        ensures count { IfOk result (HoldsKeys self.old.owned.state) }
        ensures refused { IfErr result (λ fault. (fault ≡ ActFault.WrongHandle) × KeepsNoMap self.old.owned.state) }
        ensures unchanged { self.new.owned.state ≡ self.old.owned.state }
    {
        if !self.full {
            return Err(ActFault::WrongHandle);
        }
        len_of(self.owned.state_mut())
    }

    /// Returns the parts of the value at the key of the handle's map. Writes a text's bytes to the front of the
    /// caller's room, if there is room for all of them.
    pub fn get(&mut self, key: &[u8], into: &mut [u8]) -> Result<ReplyParts, ActFault>
        ensures held { IfOk result (WritesHeld self.old.owned.state key.now into.new) }
        ensures refused { IfErr result (λ fault. (fault ≡ ActFault.WrongHandle) × KeepsNoMap self.old.owned.state) }
        ensures unwritten { IfErr result (λ fault. into.new ≡ into.old) }
        ensures unchanged { self.new.owned.state ≡ self.old.owned.state }
    {
        if !self.full {
            return Err(ActFault::WrongHandle);
        }
        value_in(self.owned.state_mut(), key, into)
    }

    /// Makes the request on the map that the handle keeps. Returns the parts of the reply, which the other handle
    /// keeps, in place of its earlier state; or why it isn't made, and then both are as they were.
    pub fn ask(
        &mut self,
        alloc: Global,
        reply: &mut Handle,
        request: LentRequest<'_>,
    ) -> Result<ReplyParts, ActFault>
        ensures made { OnOk result
            (MakesReply self.old.owned.state self.new.owned.state (request_lent request.entry) reply.new.owned.state) }
        ensures parts { IfOk result (Replied reply.new.owned.state) }
        ensures refused { IfErr result (MakesNoReply self.old.owned.state) }
        ensures kept { IfErr result (λ fault. self.new.owned.state ≡ self.old.owned.state) }
        ensures unwritten { IfErr result (λ fault. reply.new.owned.state ≡ reply.old.owned.state) }
    {
        if !self.full {
            return Err(ActFault::WrongHandle);
        }
        if reply.full {
            let made = reply_of(alloc, self.owned.state_mut(), request)?;
            let parts = ReplyParts::of(&made);
            *reply.owned.state_mut() = HandleState::Reply(made);
            return Ok(parts);
        }
        // The reply's place first, so that nothing is refused once the request is made.
        let Ok(mut place) = Box::new(alloc, HandleState::Empty) else {
            return Err(ActFault::NoMemory);
        };
        let made = reply_of(alloc, self.owned.state_mut(), request)?;
        let parts = ReplyParts::of(&made);
        *place = HandleState::Reply(made);
        reply.put(place);
        Ok(parts)
    }
}
