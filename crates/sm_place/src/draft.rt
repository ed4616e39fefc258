ghost use Rattle.std.specs.Prelude.{◌≡◌, ◌+◌, ◌<◌, ◌==◌, ◌&&◌, IfOk, IfSome, IsTrue, OnOk, Ok, Some};
ghost use Rattle.std.specs.Prelude.{is_ok, length, nat_lt, not, remove, slice_index_or};
ghost use Rattle.sm_place.specs.Books.{no_group, row_at, shard_at, IsKnown};
ghost use Rattle.sm_ranges.specs.declared.stand.Stand.TheVariants.{Vacant};
ghost use Rattle.sm_ranges.specs.Stand.{passes};
ghost use Rattle.sm_place.specs.Room.{count_in, fit, load_on};
ghost use Rattle.sm_place.specs.Plans.{books_after, first_fit, joined, servers_but, turn};

use crate::laws::fit_leaves_room;
use crate::plan::Plan;
use crate::ranks::Ranks;
use crate::roster::Roster;
use crate::server_state::ServerState;
use crate::shard::{Shard, shard_at};
use crate::sheet::Sheet;
use crate::tallies::{move_load, redraw_count};
use sm_ranges::server_id::ServerId;
use sm_ranges::shard_id::ShardId;
use sm_ranges::stand::Stand;
use sm_rows::{DomainRow, GroupRow};
use std::alloc::AllocError;
use std::marker::Model;

/// A copy of the books in which a plan makes its moves. It copies everything by shard or by server. Of the counters by
/// group and domain it copies only those that change.
#[derive(Drop)]
pub(crate) struct Draft<'a> {
    pub(crate) roster: &'a Roster,
    pub(crate) groups: &'a [GroupRow],
    pub(crate) shards: Vec<Shard>,
    pub(crate) states: &'a [ServerState],
    pub(crate) loads: Vec<u32>,
    pub(crate) counts: Sheet<'a>,
    pub(crate) domains: &'a [DomainRow],
    pub(crate) ranks: &'a Ranks,
}

impl<'a> Model for Draft<'a> {
    ghost use Rattle.sm_place.specs.Books.{BooksView};
    ghost use Rattle.sm_place.specs.Counters.{IsTallied};

    ghost Value = { BooksView };

    ghost view = { λ d. record {
      servers = d.roster.now;
      groups = d.groups.now;
      shards = d.shards.items;
      states = d.states.now;
      domains = d.domains.now;
    } };

    ghost invariant = { λ d. IsTallied d.roster.now d.groups.now d.shards.items d.states.now d.loads.items d.counts
        d.ranks.now };
}

impl<'a> Draft<'a> {
    /// Makes the first server that the shard fits serve it, and adds the move to the plan. The server from which shards
    /// move is passed over.
    pub(crate) fn place(
        self,
        k: ShardId,
        from: &Option<ServerId>,
        plan: &mut Plan,
    ) -> Result<Draft<'a>, AllocError>
        requires { k < length self.shards }
        ensures draft { IfOk result (λ draft. draft
            ≡ books_after self.entry k (first_fit self.entry k (servers_but from.now self.entry.servers))) }
        ensures plan { OnOk result (plan.new
            ≡ joined plan.old (turn k (first_fit self.entry k (servers_but from.now self.entry.servers)))) }
    {
        match self.first_fit(k, from) {
            Some(a) => {
                plan.add_move(k, a)?;
                self.serve(k, a)
            }
            None => {
                plan.add_left(k)?;
                Ok(self)
            }
        }
    }

    // Makes the server serve the shard. The shard must fit it.
    fn serve(self, k: ShardId, a: ServerId) -> Result<Draft<'a>, AllocError>
        requires shard { k < length self.shards }
        requires known { IsKnown self.servers a }
        requires fits { fit self k a ≡ Ok tt }
        ensures { IfOk result (λ draft. draft ≡ books_after self.entry k (Some a)) }
    {
        fit_leaves_room();
        let Draft {
            roster,
            groups,
            mut shards,
            states,
            mut loads,
            mut counts,
            domains,
            ranks,
        } = self;
        let at = k.index();
        let stand = Stand::Serving(a);
        move_load(&mut loads, roster, &shards, at, &stand);
        redraw_count(&mut counts, roster, ranks, &shards, at, &stand)?;
        let row = shard_at(&shards, at).row;
        shards[at] = Shard { row, stand };
        Ok(Draft {
            roster,
            groups,
            shards,
            states,
            loads,
            counts,
            domains,
            ranks,
        })
    }

    // Returns the first server that the shard fits. The server from which shards move is passed over.
    fn first_fit(&self, k: ShardId, from: &Option<ServerId>) -> Option<ServerId>
        requires { k < length self.now.shards }
        ensures first { result ≡ first_fit self.now k (servers_but from.now self.now.servers) }
        ensures fits { IfSome result (λ a. fit self.now k a ≡ Ok tt) }
        ensures known { IfSome result (λ a. IsKnown self.now.servers a) }
    {
        let is_vacant = matches!(shard_at(&self.shards, k.index()).stand, Stand::Vacant);
        for (at, row) in self.roster.rows().iter().enumerate() {
            if self.takes(k, from, at, is_vacant) {
                return Some(row.id);
            }
        }
        None
    }

    // Returns whether the shard fits the server at this place, and the server isn't the one from which shards move. If
    // `is_vacant` says so, the shard must be Vacant.
    fn takes(&self, k: ShardId, from: &Option<ServerId>, at: usize, is_vacant: bool) -> bool
        requires shard { k < length self.now.shards }
        requires vacant { IsTrue is_vacant → (shard_at self.now.shards k).stand ≡ Vacant }
        requires place { at < length self.now.servers }
        ensures { let a = (row_at self.now.servers at).id in
            result ≡ (is_ok (fit self.now k a) && not (passes (λ b. b == a) from.now)) }
    {
        if self.fits_at(k, at, is_vacant) {
            *from != Some(self.roster.rows()[at].id)
        } else {
            false
        }
    }

    // Returns whether the shard fits the server at this place. If `is_vacant` says so, the shard must be Vacant.
    fn fits_at(&self, k: ShardId, at: usize, is_vacant: bool) -> bool
        requires shard { k < length self.now.shards }
        requires vacant { IsTrue is_vacant → (shard_at self.now.shards k).stand ≡ Vacant }
        requires place { at < length self.now.servers }
        ensures { result ≡ is_ok (fit self.now k (row_at self.now.servers at).id) }
    {
        if self.has_capacity(k, at, is_vacant) {
            if self.states[at].is_leaving() {
                false
            } else {
                !self.exceeds_limit(k, at)
            }
        } else {
            false
        }
    }

    // Returns whether the server has capacity for the shard and the others that name it. If the shard already names the
    // server, it has.
    fn has_capacity(&self, k: ShardId, at: usize, is_vacant: bool) -> bool
        requires shard { k < length self.now.shards }
        requires vacant { IsTrue is_vacant → (shard_at self.now.shards k).stand ≡ Vacant }
        requires place { at < length self.now.servers }
        ensures { let server = row_at self.now.servers at in
            result ≡ not (nat_lt server.capacity
            (load_on (remove self.now.shards k) server.id + (shard_at self.now.shards k).row.load)) }
    {
        let row = self.roster.rows()[at];
        let shard = shard_at(&self.shards, k.index());
        u64::from(self.loads[at]) + u64::from(shard.row.load) <= u64::from(row.capacity)
            || (!is_vacant && shard.stand.names(row.id))
    }

    // Returns whether the shard and the others of its group in the server's domain exceed the group's limit.
    fn exceeds_limit(&self, k: ShardId, at: usize) -> bool
        requires shard { k < length self.now.shards }
        requires place { at < length self.now.servers }
        ensures { let group = (shard_at self.now.shards k).row.group in
            result ≡ nat_lt (slice_index_or self.now.groups group no_group).limit
            (count_in self.now.servers (remove self.now.shards k) group (row_at self.now.servers at).domain + 1) }
    {
        let domain = self.roster.rows()[at].domain;
        let shard = shard_at(&self.shards, k.index());
        let group = usize::from(shard.row.group);
        let cell = group * self.ranks.width() + usize::from(self.ranks.rank(domain));
        let (count, limit) = (self.counts.count(cell), self.groups[group].limit);
        if self.roster.names_domain(&shard.stand, domain) {
            count > limit
        } else {
            count >= limit
        }
    }
}
