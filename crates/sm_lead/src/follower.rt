ghost use Rattle.std.specs.Prelude.{◌≡◌};
ghost use Rattle.sm_lead.specs.NextSteps.{all_follow, is_following};

use sm_ranges::server_id::ServerId;

/// A server whose key is there, as its lease hasn't ended, and the revision up to which it has said that it has read.
#[derive(Clone, Copy, Drop)]
pub struct Follower {
    pub server: ServerId,
    pub revision: u64,
}

/// Returns whether each of them has read the store up to this revision.
pub fn all_follow(followers: &[Follower], revision: u64) -> bool
    ensures { result ≡ all_follow followers.now revision }
{
    followers
        .iter()
        .all(|follower| revision <= follower.revision)
}

/// Returns whether the server is among them.
pub(crate) fn is_following(followers: &[Follower], server: ServerId) -> bool
    ensures { result ≡ is_following followers.now server }
{
    followers.iter().any(|follower| follower.server == server)
}
