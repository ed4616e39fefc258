ghost use Rattle.std.specs.Prelude.{◌≡◌};
ghost use Rattle.sm_ownership.specs.Rules.{IsChangeResult, newly_named};

use crate::change_fault::ChangeFault;
use sm_ranges::server_id::ServerId;
use sm_ranges::stand::Stand;

/// A change of a shard's stand: a step of a graceful migration, or one of the changes before and after it.
#[derive(Clone, Copy, PartialEq, Eq, Drop)]
pub enum Change {
    /// A vacant shard gets this owner.
    Assign(ServerId),
    /// A migration to this server begins.
    PrepareAddShard(ServerId),
    /// The owner stops executing, and forwards to the next owner.
    PrepareDropShard,
    /// The next owner becomes the owner, and the previous one forwards to it.
    AddShard,
    /// The previous owner drops the shard: the migration ends.
    DropShard,
    /// The migration is given up before `AddShard`, and the shard stays with its owner.
    Cancel,
    /// Nobody executes until the shard is resumed or reassigned.
    Pause,
    /// The owner of a paused shard executes again.
    Resume,
    /// A paused shard gets this owner.
    Reassign(ServerId),
}

impl Change {
    /// Returns the stand to which the change leads, or the first fault that applies: `WrongPhase` or `SameServer`.
    pub fn apply_to(self, stand: Stand) -> Result<Stand, ChangeFault>
        ensures { IsChangeResult stand self result }
    {
        match stand {
            Stand::Vacant => self.of_vacant(),
            Stand::Serving(owner) => self.of_serving(owner),
            Stand::Prepared { owner, next } => self.of_prepared(owner, next),
            Stand::Forwarding { owner, next } => self.of_forwarding(owner, next),
            Stand::Taken { owner, previous } => self.of_taken(owner, previous),
            Stand::Paused(owner) => self.of_paused(owner),
        }
    }

    fn of_vacant(self) -> Result<Stand, ChangeFault>
        ensures { IsChangeResult Stand.Vacant self result }
    {
        match self {
            Change::Assign(server) => Ok(Stand::Serving(server)),
            _ => Err(ChangeFault::WrongPhase),
        }
    }

    fn of_serving(self, owner: ServerId) -> Result<Stand, ChangeFault>
        ensures { IsChangeResult (Stand.Serving owner) self result }
    {
        match self {
            Change::PrepareAddShard(next) => if next == owner {
                Err(ChangeFault::SameServer)
            } else {
                Ok(Stand::Prepared { owner, next })
            },
            Change::Pause => Ok(Stand::Paused(owner)),
            _ => Err(ChangeFault::WrongPhase),
        }
    }

    fn of_prepared(self, owner: ServerId, next: ServerId) -> Result<Stand, ChangeFault>
        ensures { IsChangeResult (Stand.Prepared owner next) self result }
    {
        match self {
            Change::PrepareDropShard => Ok(Stand::Forwarding { owner, next }),
            Change::Cancel => Ok(Stand::Serving(owner)),
            _ => Err(ChangeFault::WrongPhase),
        }
    }

    fn of_forwarding(self, owner: ServerId, next: ServerId) -> Result<Stand, ChangeFault>
        ensures { IsChangeResult (Stand.Forwarding owner next) self result }
    {
        match self {
            Change::AddShard => Ok(Stand::Taken {
                owner: next,
                previous: owner,
            }),
            Change::Cancel => Ok(Stand::Serving(owner)),
            _ => Err(ChangeFault::WrongPhase),
        }
    }

    fn of_taken(self, owner: ServerId, previous: ServerId) -> Result<Stand, ChangeFault>
        ensures { IsChangeResult (Stand.Taken owner previous) self result }
    {
        match self {
            Change::DropShard => Ok(Stand::Serving(owner)),
            _ => Err(ChangeFault::WrongPhase),
        }
    }

    fn of_paused(self, owner: ServerId) -> Result<Stand, ChangeFault>
        ensures { IsChangeResult (Stand.Paused owner) self result }
    {
        match self {
            Change::Resume => Ok(Stand::Serving(owner)),
            Change::Reassign(next) => if next == owner {
                Err(ChangeFault::SameServer)
            } else {
                Ok(Stand::Serving(next))
            },
            _ => Err(ChangeFault::WrongPhase),
        }
    }

    /// Returns the server that the change newly names, if it names one.
    pub fn newly_named(self) -> Option<ServerId>
        ensures { result ≡ newly_named self }
    {
        match self {
            Change::Assign(server) | Change::PrepareAddShard(server) | Change::Reassign(server) =>
                Some(server),
            _ => None,
        }
    }
}
