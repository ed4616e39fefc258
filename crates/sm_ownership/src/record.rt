ghost use Rattle.std.specs.Prelude.{◌≡◌, ◌+◌, ◌<◌, ◌^◌, true, IfOk, Some};
ghost use Rattle.std.specs.Result.{result_err};
ghost use Rattle.sm_ownership.specs.History.{after_change, after_admit, after_done};
ghost use Rattle.sm_ownership.specs.Routes.{record_route};
ghost use Rattle.sm_ownership.specs.Rules.{executor, accepts, forward_to, admit_fault, stand_after};
ghost use Rattle.sm_ownership.specs.Tables.{change_fault, record_fault};

use crate::admit_fault::AdmitFault;
use crate::change::Change;
use crate::change_fault::ChangeFault;
use crate::mode::Mode;
use crate::route::Route;
use sm_ranges::server_id::ServerId;
use sm_ranges::shard_id::ShardId;
use sm_ranges::stand::Stand;

/// The greatest ceiling of a world or a board, because it is the greatest generation that fits in a record's word.
pub const MAX_GENERATION: u64 = (1 << 36) - 1;

/// The entry of a shard in the ownership table.
#[derive(Clone, Copy, Debug, PartialEq, Eq, Drop)]
pub struct Record {
    /// Who owns the shard, and how far a migration of it has come.
    pub stand: Stand,
    /// Whether a server is admitted to the shard now.
    pub admitted: bool,
    /// How many entries the shard's history has.
    pub generation: u64,
}

impl Record {
    /// Returns the server that executes requests on the shard.
    pub fn executor(&self) -> Option<ServerId>
        ensures { result ≡ executor self.now }
    {
        match self.stand {
            Stand::Vacant | Stand::Paused(_) => None,
            Stand::Serving(owner) | Stand::Prepared { owner, .. } | Stand::Taken { owner, .. } =>
                Some(owner),
            Stand::Forwarding { next, .. } => Some(next),
        }
    }

    /// Returns whether the stand makes the server execute a request that came to it in this mode. An admission for the
    /// request may still be refused by `Admitted` or `Spent`.
    pub fn accepts(&self, server: ServerId, mode: Mode) -> bool
        ensures { result ≡ accepts self.now server mode }
    {
        match self.stand {
            Stand::Vacant | Stand::Paused(_) => false,
            Stand::Serving(owner) | Stand::Prepared { owner, .. } | Stand::Taken { owner, .. } =>
                owner == server,
            Stand::Forwarding { owner, next } => next == server && mode == Mode::Forwarded(owner),
        }
    }

    /// Returns the route to the shard's owner at its generation, or nothing if nobody owns the shard.
    pub fn route(&self, shard: ShardId) -> Option<Route>
        ensures { result ≡ record_route shard self.now }
    {
        let server = self.stand.owner()?;
        Some(Route {
            shard,
            server,
            generation: self.generation,
        })
    }

    /// Returns the server to which this one forwards requests on the shard, if it does.
    pub fn forward_to(&self, server: ServerId) -> Option<ServerId>
        ensures { result ≡ forward_to self.now server }
    {
        match self.stand {
            Stand::Forwarding { owner, next } => if owner == server { Some(next) } else { None },
            Stand::Taken { owner, previous } => if previous == server {
                Some(owner)
            } else {
                None
            },
            _ => None,
        }
    }

    /// Returns the first reason why the server is not admitted for a request that came in this mode, or nothing if it
    /// is admitted. `ceiling` is the greatest generation that a shard may have.
    pub fn admit_fault(&self, server: ServerId, mode: Mode, ceiling: u64) -> Option<AdmitFault>
        ensures { result ≡ admit_fault ceiling self.now server mode }
    {
        let accepts = self.accepts(server, mode);
        let has_room = ceiling >= 2 && self.generation <= ceiling - 2;
        // This comes first because most admissions end here.
        if accepts && !self.admitted && has_room {
            return None;
        }
        match self.stand {
            Stand::Vacant => return Some(AdmitFault::Vacant),
            Stand::Paused(_) => return Some(AdmitFault::Paused),
            _ => {}
        }
        if self.executor() != Some(server) {
            return Some(AdmitFault::NotExecutor);
        }
        if !accepts {
            return Some(AdmitFault::NotYet);
        }
        if self.admitted {
            return Some(AdmitFault::Admitted);
        }
        Some(AdmitFault::Spent)
    }

    /// Returns the record after the change, or the first fault that applies, of the faults that a record can have.
    pub fn changed(&self, change: Change, ceiling: u64) -> Result<Record, ChangeFault>
        ensures fault { result_err result ≡ change_fault ceiling self.now change }
        ensures made { IfOk result (λ next. next ≡ after_change self.now change) }
    {
        let stand = change.apply_to(self.stand)?;
        self.changed_to(&change, &stand, ceiling)
    }

    /// Does the same as `changed`. The caller must know that the change leads to this stand, so only `Spent` and `Busy`
    /// can refuse it.
    pub fn changed_to(
        &self,
        change: &Change,
        stand: &Stand,
        ceiling: u64,
    ) -> Result<Record, ChangeFault>
        requires leads { stand_after self.now.stand change.now ≡ Some stand.now }
        ensures fault { result_err result ≡ record_fault ceiling self.now }
        ensures made { IfOk result (λ next. next ≡ after_change self.now change.now) }
    {
        if self.generation >= ceiling {
            return Err(ChangeFault::Spent(*self));
        }
        if self.admitted {
            return Err(ChangeFault::Busy(*self));
        }
        Ok(Record {
            stand: *stand,
            admitted: self.admitted,
            generation: self.generation + 1,
        })
    }

    /// Returns the record after an admission of the server for a request that came in this mode, or the first fault
    /// that applies.
    pub fn admitted(&self, server: ServerId, mode: Mode, ceiling: u64) -> Result<Record, AdmitFault>
        ensures fault { result_err result ≡ admit_fault ceiling self.now server mode }
        ensures made { IfOk result (λ next. next ≡ after_admit self.now) }
    {
        if let Some(fault) = self.admit_fault(server, mode, ceiling) {
            return Err(fault);
        }
        Ok(Record {
            stand: self.stand,
            admitted: true,
            generation: self.generation + 1,
        })
    }

    /// Returns the record after the end of its admission.
    pub fn ended(&self) -> Record
        requires admitted { self.now.admitted ≡ true }
        requires room { self.now.generation + 1 < 2 ^ 64 }
        ensures { result ≡ after_done self.now }
    {
        Record {
            stand: self.stand,
            admitted: false,
            generation: self.generation + 1,
        }
    }
}
