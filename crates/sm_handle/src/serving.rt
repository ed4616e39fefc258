//! Boards of the sample service, and envelopes, that handles keep.
ghost use Rattle.std.specs.Prelude.{◌≡◌, [], IfErr, IfOk, OnOk, replicate};
ghost use Rattle.sm_foreign.specs.Refusals.{OpensNothing};
ghost use Rattle.sm_handle_state.specs.Serving.{Carries, CarriesNothing, IsOfBoard, IsSentAs};
ghost use Rattle.sm_handle_state.specs.Serving.{KeepsNoAnswer, KeepsNoEnvelope, MakesCheckpoint};
ghost use Rattle.sm_handle_state.specs.Serving.{RefusesCheckpoint, Serves, ServesNowhere, TellsAnswer};
ghost use Rattle.sm_handle.specs.Opening.{IsServiceOpened};

use crate::handle::Handle;
use sm_foreign::{Chief, OpenFault};
use sm_handle_state::serving::{answer_in, checkpoint_of, envelope_of, sent_in, served_by};
use sm_handle_state::{ActFault, AnswerParts, HandleState, SentAs, ServedAs};
use sm_ranges::shard_id::ShardId;
use sm_service::{CounterText, Request};
use std::alloc::{AllocError, Global};

impl Handle {
    /// Keeps the control of a new board of the sample service with so many shards, each of which keeps at most so many
    /// requests, of so many servers from 1 on, at most `ops` of which restart at once, in place of the earlier state.
    /// If there is a fault, returns it, and the handle is as it was.
    pub fn open_service(
        &mut self,
        alloc: Global,
        count: usize,
        kept: usize,
        servers: u16,
        ops: u16,
        ceiling: u64,
    ) -> Result<(), OpenFault>
        ensures made { OnOk result (IsServiceOpened self.new.owned.state count kept servers ops ceiling) }
        ensures refused { IfErr result (OpensNothing count servers ops ceiling) }
        ensures kept { IfErr result (λ fault. self.new.owned.state ≡ self.old.owned.state) }
    {
        let Ok(bodies) = empty_bodies(alloc, count, kept) else {
            return Err(OpenFault::NoMemory);
        };
        let chief = Chief::make(alloc, bodies, servers, ops, ceiling)?;
        match self.keep(alloc, HandleState::TextChief(chief)) {
            Ok(()) => Ok(()),
            Err(_) => Err(OpenFault::NoMemory),
        }
    }

    /// Keeps an envelope that came in this mode and carries the request, with a note of everything that the other
    /// handle's pass has seen, in place of the earlier state. If there is a fault, returns it, and this handle is as it
    /// was. The other one is as it was.
    pub fn envelope(
        &mut self,
        alloc: Global,
        pass: &mut Handle,
        sent: SentAs,
        request: Request,
    ) -> Result<(), ActFault>
        ensures pass { pass.new.owned.state ≡ pass.old.owned.state }
        ensures made { OnOk result (Carries pass.old.owned.state self.new.owned.state sent request) }
        ensures refused { IfErr result (CarriesNothing pass.old.owned.state sent) }
        ensures kept { IfErr result (λ fault. self.new.owned.state ≡ self.old.owned.state) }
    {
        if !pass.full {
            return Err(ActFault::WrongHandle);
        }
        let made = envelope_of(pass.owned.state_mut(), sent, request)?;
        match self.keep(alloc, made) {
            Ok(()) => Ok(()),
            Err(_) => Err(ActFault::NoMemory),
        }
    }

    /// Makes the server of the handle's pass serve the other handle's envelope, by the layout that the third one keeps.
    /// Returns the outcome: the envelope's handle then keeps the answer, or the envelope that goes on or comes back. Or
    /// returns why nothing was done, and each handle is as it was.
    pub fn serve(
        &mut self,
        layout: &mut Handle,
        envelope: &mut Handle,
    ) -> Result<ServedAs, ActFault>
        requires { IsOfBoard self.old.owned.state envelope.old.owned.state }
        ensures served { IfOk result (Serves self.old.owned.state self.new.owned.state layout.old.owned.state
            envelope.old.owned.state envelope.new.owned.state) }
        ensures layout { layout.new.owned.state ≡ layout.old.owned.state }
        ensures refused { IfErr result
            (λ fault. ServesNowhere self.old.owned.state layout.old.owned.state envelope.old.owned.state) }
        ensures fault { IfErr result (λ fault. fault ≡ ActFault.WrongHandle) }
        ensures kept { IfErr result (λ fault. self.new.owned.state ≡ self.old.owned.state) }
        ensures back { IfErr result (λ fault. envelope.new.owned.state ≡ envelope.old.owned.state) }
    {
        if !self.full || !layout.full || !envelope.full {
            return Err(ActFault::WrongHandle);
        }
        let sent = std::mem::replace(envelope.owned.state_mut(), HandleState::Empty);
        let (next, served) = served_by(self.owned.state_mut(), layout.owned.state_mut(), sent);
        *envelope.owned.state_mut() = next;
        served
    }

    /// Returns the envelope that the handle keeps, but for its request and its note.
    pub fn sent(&mut self) -> Result<SentAs, ActFault>
        ensures sent { IfOk result (IsSentAs self.old.owned.state) }
        ensures refused { IfErr result
            (λ fault. (fault ≡ ActFault.WrongHandle) × KeepsNoEnvelope self.old.owned.state) }
        ensures unchanged { self.new.owned.state ≡ self.old.owned.state }
    {
        if !self.full {
            return Err(ActFault::WrongHandle);
        }
        sent_in(self.owned.state_mut())
    }

    /// Returns the answer that the handle keeps, but for its reply.
    pub fn answer(&mut self) -> Result<AnswerParts, ActFault>
        ensures parts { IfOk result (TellsAnswer self.old.owned.state) }
        ensures refused { IfErr result (λ fault. (fault ≡ ActFault.WrongHandle) × KeepsNoAnswer self.old.owned.state) }
        ensures unchanged { self.new.owned.state ≡ self.old.owned.state }
    {
        if !self.full {
            return Err(ActFault::WrongHandle);
        }
        answer_in(self.owned.state_mut())
    }

    /// Makes the shard's present state its base, so that it keeps no request: its generation since then; or says why
    /// not.
    pub fn checkpoint(&mut self, k: ShardId) -> Result<u64, ActFault>
        ensures made { IfOk result (MakesCheckpoint self.old.owned.state self.new.owned.state k) }
        ensures refused { IfErr result (RefusesCheckpoint self.old.owned.state self.new.owned.state k) }
    {
        if !self.full {
            return Err(ActFault::WrongHandle);
        }
        checkpoint_of(self.owned.state_mut(), k)
    }
}

// A body without a request for each shard.
pub(crate) fn empty_bodies(
    alloc: Global,
    count: usize,
    kept: usize,
) -> Result<Vec<CounterText>, AllocError>
    ensures { IfOk result (λ bodies. bodies.items
        ≡ replicate count (record { base = []; before = 0; requests = []; limit = kept })) }
{
    let mut bodies = Vec::with_capacity(alloc, count)?;
    for _shard in 0..count {
        bodies.push(CounterText::new(alloc, kept))?;
    }
    Ok(bodies)
}
