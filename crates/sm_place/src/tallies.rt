ghost use Rattle.std.specs.Prelude.{◌≡◌, ◌^◌, ◌<◌, ℕ, if◌then◌else◌, OnOk, length, remove};
ghost use Rattle.sm_place.specs.Books.{domain_of, IsKnown, shard_at, with_stand};
ghost use Rattle.sm_ranges.specs.Stand.{AllNamed};
ghost use Rattle.sm_place.specs.Room.{count_in, load_by, load_on, names_domain};
ghost use Rattle.sm_place.specs.Counters.{HasCells, HasCounts, HasLoads};
ghost use Rattle.sm_place.specs.Ranks.{AreRanked};

use crate::counters::{lower, lower_each, raise, raise_each};
use crate::ranks::Ranks;
use crate::roster::Roster;
use crate::shard::{Shard, shard_at};
use crate::sheet::Sheet;
use sm_ranges::server_id::ServerId;
use sm_ranges::stand::Stand;
use std::alloc::AllocError;

/// Returns the load of the other shards on the server.
pub(crate) fn other_load(
    loads: &[u32],
    roster: &Roster,
    shards: &[Shard],
    at: usize,
    a: ServerId,
) -> u32
    requires shard { at < length shards.now }
    requires known { IsKnown roster.now a }
    requires loads { HasLoads roster.now shards.now loads.now }
    ensures { result ≡ load_on (remove shards.now at) a }
{
    let place = roster.place(a);
    loads[place] - load_by(shard_at(shards, at), a)
}

// Returns how much of the server's capacity the shard takes.
fn load_by(shard: &Shard, a: ServerId) -> u32
    ensures { result ≡ load_by a shard.now }
{
    if shard.stand.names(a) {
        shard.row.load
    } else {
        0
    }
}

/// Adds the shard's load to the servers that the new stand names, and takes it from those that the old one named.
pub(crate) fn move_load(
    loads: &mut [u32],
    roster: &Roster,
    shards: &[Shard],
    at: usize,
    stand: &Stand,
)
    requires shard { at < length shards.now }
    requires before { AllNamed (IsKnown roster.now) (shard_at shards.now at).stand }
    requires after { AllNamed (IsKnown roster.now) stand.now }
    requires loads { HasLoads roster.now shards.now loads.old }
    requires fits { (a : ℕ) → IsKnown roster.now a → load_on (with_stand shards.now at stand.now) a < 2 ^ 32 }
    ensures { HasLoads roster.now (with_stand shards.now at stand.now) loads.new }
{
    let shard = shard_at(shards, at);
    let (owner, other) = roster.places_of(&shard.stand);
    lower(loads, owner, other, shard.row.load);
    let (owner, other) = roster.places_of(stand);
    raise(loads, owner, other, shard.row.load);
}

/// Returns how many other shards of the shard's group name a server in this server's domain.
pub(crate) fn other_count(
    counts: &[u16],
    roster: &Roster,
    ranks: &Ranks,
    shards: &[Shard],
    at: usize,
    a: ServerId,
) -> u32
    requires shard { at < length shards.now }
    requires known { IsKnown roster.now a }
    requires before { AllNamed (IsKnown roster.now) (shard_at shards.now at).stand }
    requires domains { AreRanked roster.now ranks.now }
    requires cells { HasCells counts.now (shard_at shards.now at).row.group ranks.now }
    requires counts { HasCounts roster.now shards.now counts.now ranks.now }
    ensures { result
        ≡ count_in roster.now (remove shards.now at) (shard_at shards.now at).row.group (domain_of roster.now a) }
{
    let shard = shard_at(shards, at);
    let group = shard.row.group;
    let cell = roster.cell(ranks, group, a);
    u32::from(counts[cell]) - count_by(roster, shard, roster.row(a).domain)
}

// Returns how often the shard counts in the domain: once if it names a server there.
fn count_by(roster: &Roster, shard: &Shard, domain: u16) -> u32
    requires { AllNamed (IsKnown roster.now) shard.now.stand }
    ensures { result ≡ (if names_domain roster.now shard.now.stand domain then 1 else 0) }
{
    if roster.names_domain(&shard.stand, domain) {
        1
    } else {
        0
    }
}

/// Counts the shard in the domains that the new stand names, and no longer in those that the old one named.
pub(crate) fn move_count(
    counts: &mut [u16],
    roster: &Roster,
    ranks: &Ranks,
    shards: &[Shard],
    at: usize,
    stand: &Stand,
)
    requires shard { at < length shards.now }
    requires before { AllNamed (IsKnown roster.now) (shard_at shards.now at).stand }
    requires after { AllNamed (IsKnown roster.now) stand.now }
    requires domains { AreRanked roster.now ranks.now }
    requires cells { HasCells counts.old (shard_at shards.now at).row.group ranks.now }
    requires counts { HasCounts roster.now shards.now counts.old ranks.now }
    requires fits { (d : ℕ)
        → count_in roster.now (with_stand shards.now at stand.now) (shard_at shards.now at).row.group d < 2 ^ 16 }
    ensures { HasCounts roster.now (with_stand shards.now at stand.now) counts.new ranks.now }
{
    let shard = shard_at(shards, at);
    let group = shard.row.group;
    let (owner, other) = roster.cells_of(ranks, group, &shard.stand);
    lower_each(counts, owner, other);
    let (owner, other) = roster.cells_of(ranks, group, stand);
    raise_each(counts, owner, other);
}

/// Does the same in a sheet. If memory is refused, the sheet must not be used any more.
pub(crate) fn redraw_count(
    counts: &mut Sheet<'_>,
    roster: &Roster,
    ranks: &Ranks,
    shards: &[Shard],
    at: usize,
    stand: &Stand,
) -> Result<(), AllocError>
    requires shard { at < length shards.now }
    requires before { AllNamed (IsKnown roster.now) (shard_at shards.now at).stand }
    requires after { AllNamed (IsKnown roster.now) stand.now }
    requires domains { AreRanked roster.now ranks.now }
    requires cells { HasCells counts.old (shard_at shards.now at).row.group ranks.now }
    requires counts { HasCounts roster.now shards.now counts.old ranks.now }
    requires fits { (d : ℕ)
        → count_in roster.now (with_stand shards.now at stand.now) (shard_at shards.now at).row.group d < 2 ^ 16 }
    ensures length { OnOk result (length counts.new ≡ length counts.old) }
    ensures counts { OnOk result
        (HasCounts roster.now (with_stand shards.now at stand.now) counts.new ranks.now) }
{
    let shard = shard_at(shards, at);
    let group = shard.row.group;
    let (owner, other) = roster.cells_of(ranks, group, &shard.stand);
    counts.lower(owner, other)?;
    let (owner, other) = roster.cells_of(ranks, group, stand);
    counts.raise(owner, other)?;
    Ok(())
}
