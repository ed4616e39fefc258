ghost use Rattle.std.specs.Prelude.{◌≡◌, ◌+◌, ◌<◌, ◌↔◌, IfOk, IfSome, IfNone, IsOkUnless, IsTrue, Err, Some};
ghost use Rattle.std.specs.Prelude.{None};
ghost use Rattle.std.specs.Prelude.{length, map, nat_lt, remove, slice_index_or};
ghost use Rattle.std.specs.List.Sorted.{IsStrictlyIncreasing};
ghost use Rattle.sm_place.specs.Books.{first_books_fault, new_books, IsKnown};
ghost use Rattle.sm_place.specs.Books.{domain_of, no_group, row_by_id, shard_at, state_of, with_stand, with_state};
ghost use Rattle.sm_ranges.specs.Stand.{AllNamed};
ghost use Rattle.sm_place.specs.Room.{count_in, fit, load_on, HasRoom};
ghost use Rattle.sm_place.specs.Sound.{AreSound};
ghost use Rattle.sm_place.specs.Plans.{KeepsRoom, assign_plan, drain_plan, plan};
ghost use Rattle.sm_place.specs.Plans.{servers_but, shards_to_move};

use crate::books_fault::BooksFault;
use crate::candidates::shards_to_move;
use crate::draft::Draft;
use crate::place_fault::PlaceFault;
use crate::plan::Plan;
use crate::ranks::Ranks;
use crate::roster::Roster;
use crate::server_state::ServerState;
use crate::shard::{Shard, shard_at, vacant_shards};
use crate::sheet::Sheet;
use crate::tallies::{move_count, move_load, other_count, other_load};
use sm_ranges::server_id::ServerId;
use sm_ranges::shard_id::ShardId;
use sm_ranges::stand::Stand;
use sm_rows::{DomainRow, GroupRow, ServerRow, ShardRow};
use std::alloc::{AllocError, Global};
use std::marker::Model;

/// The rows of servers, groups, shards and fault domains, with the state of each server and the stand of each shard. At
/// all times each server has the capacity for the shards that name it, and each group is within its limit in each
/// domain.
#[derive(Drop)]
pub struct Books {
    roster: Roster,
    groups: Vec<GroupRow>,
    shards: Vec<Shard>,
    states: Vec<ServerState>,
    // the loads of the shards that name a server, by the server's place
    loads: Vec<u32>,
    // how many shards name a server of a domain, by group and the domain's rank: at most 4,096
    counts: Vec<u16>,
    domains: Vec<DomainRow>,
    ranks: Ranks,
}

impl Model for Books {
    ghost use Rattle.sm_place.specs.Books.{BooksView};
    ghost use Rattle.sm_place.specs.Counters.{IsTallied};

    ghost Value = { BooksView };

    ghost view = { λ b. record {
      servers = b.roster;
      groups = b.groups.items;
      shards = b.shards.items;
      states = b.states.items;
      domains = b.domains.items;
    } };

    ghost invariant = { λ b. IsTallied b.roster b.groups.items b.shards.items b.states.items b.loads.items
        b.counts.items b.ranks };
}

impl Books {
    /// Makes the books of these rows, with all servers up and all shards vacant. If the rows break a rule, returns the
    /// first fault that applies.
    pub fn new(
        alloc: Global,
        servers: &[ServerRow],
        groups: &[GroupRow],
        shards: &[ShardRow],
        domains: &[DomainRow],
    ) -> Result<Books, BooksFault>
        ensures ok { IfOk result (λ books. books ≡ new_books servers.now groups.now shards.now domains.now) }
        ensures fault { IfSome (first_books_fault servers.now groups.now shards.now domains.now)
            (λ fault. result ≡ Err fault) }
        ensures no_fault { IfNone (first_books_fault servers.now groups.now shards.now domains.now)
            (IsOkUnless result BooksFault.NoMemory) }
    {
        if let Some(fault) = BooksFault::first(servers, groups, shards, domains) {
            return Err(fault);
        }
        let ranks = Ranks::new(alloc, servers)?;
        Ok(Books {
            roster: Roster::new(alloc, servers)?,
            groups: Vec::from_slice(alloc, groups)?,
            shards: vacant_shards(alloc, shards)?,
            states: vec![in alloc; ServerState::Up; servers.len()]?,
            loads: vec![in alloc; 0; servers.len()]?,
            counts: vec![in alloc; 0; groups.len() * ranks.width()]?,
            domains: Vec::from_slice(alloc, domains)?,
            ranks,
        })
    }

    /// Returns whether the server has a row.
    pub fn knows(&self, a: ServerId) -> bool
        ensures { IsTrue result ↔ IsKnown self.now.servers a }
    {
        self.roster.knows(a)
    }

    /// Returns the rows of the servers, in rising order.
    pub fn rows(&self) -> &[ServerRow]
        ensures servers { result.now ≡ self.now.servers }
        ensures rising { IsStrictlyIncreasing (map (λ row. row.id) result.now) }
    {
        self.roster.rows()
    }

    /// Returns the row of the server.
    pub fn row(&self, a: ServerId) -> ServerRow
        requires { IsKnown self.now.servers a }
        ensures { result ≡ row_by_id self.now.servers a }
    {
        self.roster.row(a)
    }

    /// Returns the rows of the groups.
    pub fn groups(&self) -> &[GroupRow]
        ensures { result.now ≡ self.now.groups }
    {
        self.groups.as_slice()
    }

    /// Returns the rows of the shards by number, each with its stand.
    pub fn shards(&self) -> &[Shard]
        ensures { result.now ≡ self.now.shards }
    {
        self.shards.as_slice()
    }

    /// Returns the states, in the order of the servers.
    pub fn states(&self) -> &[ServerState]
        ensures { result.now ≡ self.now.states }
    {
        self.states.as_slice()
    }

    /// Returns the rows of the domains, in rising order.
    pub fn domains(&self) -> &[DomainRow]
        ensures { result.now ≡ self.now.domains }
    {
        self.domains.as_slice()
    }

    /// Tells proofs the facts about all books. It does nothing.
    pub fn soundness(&self)
        ensures { AreSound self.now }
    {
        // This opens the value, because the proof cites its invariant.
        let _ = &self.ranks;
    }

    /// Returns the stand of the shard.
    pub fn stand(&self, k: ShardId) -> Stand
        requires { k < length self.now.shards }
        ensures { result ≡ (shard_at self.now.shards k).stand }
    {
        shard_at(&self.shards, k.index()).stand
    }

    /// Returns the state of the server.
    pub fn state(&self, a: ServerId) -> ServerState
        requires { IsKnown self.now.servers a }
        ensures { result ≡ state_of self.now a }
    {
        self.states[self.roster.place(a)]
    }

    /// Sets the state of the server.
    pub fn set_state(&mut self, a: ServerId, state: ServerState)
        requires { IsKnown self.old.servers a }
        ensures { self.new ≡ with_state self.old a state }
    {
        let at = self.roster.place(a);
        self.states[at] = state;
    }

    /// Sets the stand of the shard. The servers that the stand names must have rows, and the books must have room for
    /// it.
    pub fn set_stand(&mut self, k: ShardId, stand: Stand)
        requires shard { k < length self.old.shards }
        requires known { AllNamed (IsKnown self.old.servers) stand }
        requires room { HasRoom self.old.servers self.old.groups (with_stand self.old.shards k stand) }
        ensures { self.new ≡ record self.old { shards = with_stand self.old.shards k stand } }
    {
        let at = k.index();
        move_load(&mut self.loads, &self.roster, &self.shards, at, &stand);
        move_count(
            &mut self.counts,
            &self.roster,
            &self.ranks,
            &self.shards,
            at,
            &stand,
        );
        let row = shard_at(&self.shards, at).row;
        self.shards[at] = Shard { row, stand };
    }

    /// Returns whether the shard may newly name the server, or the first fault that applies. If the shard already takes
    /// capacity of the server, this isn't counted.
    pub fn fits(&self, k: ShardId, a: ServerId) -> Result<(), PlaceFault>
        requires shard { k < length self.now.shards }
        requires known { IsKnown self.now.servers a }
        ensures { result ≡ fit self.now k a }
    {
        if self.state(a).is_leaving() {
            return Err(PlaceFault::Leaving);
        }
        if self.exceeds_capacity(k, a) {
            return Err(PlaceFault::NoCapacity);
        }
        if self.exceeds_limit(k, a) {
            return Err(PlaceFault::DomainLimit);
        }
        Ok(())
    }

    // Returns whether the shard and the others that name the server exceed its capacity.
    fn exceeds_capacity(&self, k: ShardId, a: ServerId) -> bool
        requires shard { k < length self.now.shards }
        requires known { IsKnown self.now.servers a }
        ensures { result ≡ nat_lt (row_by_id self.now.servers a).capacity
            (load_on (remove self.now.shards k) a + (shard_at self.now.shards k).row.load) }
    {
        let others = other_load(&self.loads, &self.roster, &self.shards, k.index(), a);
        let own = shard_at(&self.shards, k.index()).row.load;
        u64::from(others) + u64::from(own) > u64::from(self.roster.row(a).capacity)
    }

    // Returns whether the shard and the others of its group in the server's domain exceed the group's limit.
    fn exceeds_limit(&self, k: ShardId, a: ServerId) -> bool
        requires shard { k < length self.now.shards }
        requires known { IsKnown self.now.servers a }
        ensures { let group = (shard_at self.now.shards k).row.group in
            result ≡ nat_lt (slice_index_or self.now.groups group no_group).limit
            (count_in self.now.servers (remove self.now.shards k) group (domain_of self.now.servers a) + 1) }
    {
        let at = k.index();
        let others = other_count(&self.counts, &self.roster, &self.ranks, &self.shards, at, a);
        let group = shard_at(&self.shards, at).row.group;
        others >= u32::from(self.groups[usize::from(group)].limit)
    }

    /// Plans where the Vacant shards go. In the order of their numbers, each shard goes to the lowest server that it
    /// fits, as if the earlier moves were made. If a shard fits no server in its turn, it is left.
    pub fn plan_assign(&self, alloc: Global) -> Result<Plan, AllocError>
        ensures plan { IfOk result (λ plan. plan ≡ assign_plan self.now) }
        ensures keeps_room { IfOk result (λ plan. KeepsRoom self.now (shards_to_move None self.now.shards)
            (servers_but None self.now.servers) plan.moves plan.left) }
    {
        self.plan(alloc, &None)
    }

    /// Plans where the shards go that the server serves. In the order of their numbers, each shard goes to the lowest
    /// other server that it fits, as if the earlier ones were wholly migrated. If a shard fits no other server in its
    /// turn, it is left. A shard that names the server in another stand is not in the plan.
    pub fn plan_drain(&self, alloc: Global, a: ServerId) -> Result<Plan, AllocError>
        ensures plan { IfOk result (λ plan. plan ≡ drain_plan self.now a) }
        ensures keeps_room { IfOk result (λ plan. KeepsRoom self.now (shards_to_move (Some a) self.now.shards)
            (servers_but (Some a) self.now.servers) plan.moves plan.left) }
    {
        self.plan(alloc, &Some(a))
    }

    // Returns the plan for the shards that the server serves, or, without a server, for the Vacant shards. It makes the
    // moves in a draft.
    fn plan(&self, alloc: Global, from: &Option<ServerId>) -> Result<Plan, AllocError>
        ensures plan { IfOk result (λ found. found ≡ plan self.now (shards_to_move from.now self.now.shards)
            (servers_but from.now self.now.servers)) }
        ensures keeps_room { IfOk result (λ found. KeepsRoom self.now (shards_to_move from.now self.now.shards)
            (servers_but from.now self.now.servers) found.moves found.left) }
    {
        let shards = shards_to_move(alloc, &self.shards, from)?;
        let mut draft = self.draft(alloc)?;
        let mut plan = Plan::new(alloc);
        for k in &shards {
            draft = draft.place(*k, from, &mut plan)?;
        }
        Ok(plan)
    }

    // Returns a copy of the books in which a plan can make its moves.
    fn draft(&self, alloc: Global) -> Result<Draft<'_>, AllocError>
        ensures { IfOk result (λ draft. draft ≡ self.now) }
    {
        Ok(Draft {
            roster: &self.roster,
            groups: &self.groups,
            shards: Vec::from_slice(alloc, &self.shards)?,
            states: &self.states,
            loads: Vec::from_slice(alloc, &self.loads)?,
            counts: Sheet::new(alloc, &self.counts),
            domains: &self.domains,
            ranks: &self.ranks,
        })
    }
}
