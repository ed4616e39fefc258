//! Records that have words. Each has that was read, and each that a change leads to.
ghost use Rattle.std.specs.Prelude.{◌≢◌, IsTrue, Some};
ghost use Rattle.sm_ranges.specs.ServerId.{IsServer};
ghost use Rattle.sm_word.specs.Word.{FitsStand, IsWellFormed, NamesServers};

use sm_ownership::record::{MAX_GENERATION, Record};
use sm_ranges::server_id::ServerId;
use sm_ranges::stand::Stand;

/// Returns whether the record has a word.
pub(crate) fn has_word(state: &Record) -> bool
    ensures { IsTrue result → IsWellFormed state.now }
{
    names_servers(&state.stand) && fits_stand(state) && state.generation <= MAX_GENERATION
}

// Returns whether the servers that the stand names are valid, and two if it names two.
fn names_servers(stand: &Stand) -> bool
    ensures { IsTrue result → NamesServers stand.now }
{
    match stand {
        Stand::Vacant => true,
        Stand::Serving(owner) | Stand::Paused(owner) => owner.number() > 0,
        Stand::Prepared { owner, next } | Stand::Forwarding { owner, next } => {
            are_apart(*owner, *next)
        }
        Stand::Taken { owner, previous } => are_apart(*owner, *previous),
    }
}

fn are_apart(one: ServerId, other: ServerId) -> bool
    ensures servers { IsServer one × IsServer other }
    ensures apart { IsTrue result → Some one ≢ Some other }
{
    one.number() != other.number()
}

// Returns whether the record has a generation if and only if somebody owned the shard, and no admission if no server
// executes.
fn fits_stand(state: &Record) -> bool
    ensures { IsTrue result → FitsStand state.now.stand state.now.admitted state.now.generation }
{
    match state.stand {
        Stand::Vacant => !state.admitted && state.generation == 0,
        Stand::Paused(_) => !state.admitted && state.generation >= 1,
        _ => state.generation >= 1,
    }
}
