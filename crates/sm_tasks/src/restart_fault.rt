ghost use Rattle.std.specs.Prelude.{◌≡◌};
ghost use Rattle.sm_tasks.specs.Approvals.{restart_fault_name, restart_fault_number};

use sm_ranges::ShardId;
use thiserror::Error;

/// Why a step of a restart is refused. An approval and a stop are refused for the first reason that applies, in this
/// order.
#[derive(Clone, Copy, Debug, PartialEq, Eq, Drop, Error)]
pub enum RestartFault {
    /// A restart is asked for, but the server is not Up.
    #[error("the server is not up")]
    NotUp,
    /// A restart is to be approved, but the server is not Asked.
    #[error("the restart is not asked for")]
    NotAsked,
    /// With this server, more than `ops` servers would be Approved, Stopped or Failed.
    #[error("too many servers are leaving")]
    GlobalCap,
    /// The lowest shard of cap 0 that names the server.
    #[error("shard {0} may not be down")]
    ShardCap(ShardId),
    /// The lowest group, by its place from 0, that has a shard on the server, if more of its shards than its `down`
    /// would name this server or one that is leaving.
    #[error("too many shards of group {0} would be down")]
    GroupCap(u16),
    /// The domain of the server, if with this server more of its servers than its `down` would be Approved, Stopped or
    /// Failed.
    #[error("too many servers of domain {0} would be down")]
    DomainCap(u16),
    /// The server is to be stopped, but is not Approved.
    #[error("the restart is not approved")]
    NotApproved,
    /// The lowest shard that is not paused and names the server that is to be stopped.
    #[error("shard {0} is not paused")]
    StillServing(ShardId),
    /// The server comes back, but was Up already.
    #[error("the server is up already")]
    AlreadyUp,
    /// The server fails, but had Failed already.
    #[error("the server failed already")]
    AlreadyFailed,
}

impl RestartFault {
    /// Returns the fault's name in scripts and in other languages.
    pub fn name(self) -> &'static str
        ensures { result.now ≡ restart_fault_name self }
    {
        match self {
            RestartFault::NotUp => "NotUp",
            RestartFault::NotAsked => "NotAsked",
            RestartFault::GlobalCap => "GlobalCap",
            RestartFault::ShardCap(_) => "ShardCap",
            RestartFault::GroupCap(_) => "GroupCap",
            RestartFault::DomainCap(_) => "DomainCap",
            RestartFault::NotApproved => "NotApproved",
            RestartFault::StillServing(_) => "StillServing",
            RestartFault::AlreadyUp => "AlreadyUp",
            RestartFault::AlreadyFailed => "AlreadyFailed",
        }
    }

    /// Returns the number of the shard, group or domain because of which the step is refused, if there is one.
    pub fn number(self) -> Option<u16>
        ensures { result ≡ restart_fault_number self }
    {
        match self {
            RestartFault::ShardCap(k) | RestartFault::StillServing(k) => Some(k.number()),
            RestartFault::GroupCap(n) | RestartFault::DomainCap(n) => Some(n),
            _ => None,
        }
    }
}
