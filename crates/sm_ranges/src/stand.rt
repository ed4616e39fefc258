ghost use Rattle.std.specs.Prelude.{◌≡◌};
ghost use Rattle.sm_ranges.specs.Stand.{names, other_of, owner_of};

use crate::server_id::ServerId;

/// Who owns a shard, and how far a migration of it has come.
#[derive(Clone, Copy, Debug, PartialEq, Eq, Drop)]
pub enum Stand {
    /// Nobody owns the shard yet.
    Vacant,
    /// The owner executes requests.
    Serving(ServerId),
    /// The owner executes requests, and a migration to the next owner has begun.
    Prepared { owner: ServerId, next: ServerId },
    /// The next owner executes the requests that the owner forwards to it.
    Forwarding { owner: ServerId, next: ServerId },
    /// The new owner executes requests, and the previous one forwards requests that still reach it.
    Taken { owner: ServerId, previous: ServerId },
    /// The server owns the shard, and nobody executes requests until the shard is resumed or reassigned.
    Paused(ServerId),
}

impl Stand {
    /// Returns the owner. Every stand names one, except a vacant stand.
    pub fn owner(&self) -> Option<ServerId>
        ensures { result ≡ owner_of self.now }
    {
        match *self {
            Stand::Vacant => None,
            Stand::Serving(owner)
            | Stand::Prepared { owner, .. }
            | Stand::Forwarding { owner, .. }
            | Stand::Taken { owner, .. }
            | Stand::Paused(owner) => Some(owner),
        }
    }

    /// Returns the next or the previous server. A stand names one during a migration.
    pub fn other(&self) -> Option<ServerId>
        ensures { result ≡ other_of self.now }
    {
        match *self {
            Stand::Prepared { next, .. } | Stand::Forwarding { next, .. } => Some(next),
            Stand::Taken { previous, .. } => Some(previous),
            Stand::Vacant | Stand::Serving(_) | Stand::Paused(_) => None,
        }
    }

    /// Returns whether the stand names the server.
    pub fn names(&self, server: ServerId) -> bool
        ensures { result ≡ names self.now server }
    {
        self.owner() == Some(server) || self.other() == Some(server)
    }
}
