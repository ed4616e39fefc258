ghost use Rattle.std.specs.Prelude.{◌≡◌, ◌<◌, ◌≤◌, All, IfOk, length};
ghost use Rattle.sm_rows.specs.declared.limits.TheConstants.{MAX_DOMAIN};
ghost use Rattle.sm_ranges.specs.declared.limits.TheConstants.{MAX_SERVER};
ghost use Rattle.sm_place.specs.declared.ranks.TheConstants.{NO_RANK};
ghost use Rattle.sm_place.specs.Ranks.{rank_of, with_rank, AreRanked};

use sm_rows::ServerRow;
use sm_rows::limits::MAX_DOMAIN;
use std::alloc::{AllocError, Global};
use std::marker::Model;

/// The rank of a domain without servers. It is above each rank, and equals the greatest number of domains.
pub const NO_RANK: u16 = MAX_DOMAIN + 1;

/// The ranks 0, 1 and so on of the domains that have servers. Only these domains have counters.
#[derive(Drop)]
pub struct Ranks {
    // the rank of each domain, or none
    ranks: Vec<u16>,
    width: u16,
}

impl Model for Ranks {
    ghost use Rattle.sm_place.specs.Ranks.{Ranking};

    ghost Value = { Ranking };

    ghost view = { λ r. record { ranks = r.ranks.items; width = r.width } };
}

impl Ranks {
    /// Makes the ranks of the domains of these rows. Each domain gets one rank.
    pub fn new(alloc: Global, rows: &[ServerRow]) -> Result<Ranks, AllocError>
        requires domains { All (λ row. row.domain ≤ MAX_DOMAIN) rows.now }
        requires few { length rows.now ≤ MAX_SERVER }
        ensures { IfOk result (λ ranks. AreRanked rows.now ranks) }
    {
        let mut ranks = Ranks {
            ranks: vec![in alloc; NO_RANK; usize::from(NO_RANK)]?,
            width: 0,
        };
        for row in rows {
            ranks.add(row.domain);
        }
        Ok(ranks)
    }

    /// Returns how many domains have a rank.
    pub fn width(&self) -> usize
        ensures { result ≡ self.now.width }
    {
        usize::from(self.width)
    }

    /// Returns the rank of the domain, or `NO_RANK`.
    pub fn rank(&self, domain: u16) -> u16
        ensures { result ≡ rank_of self.now domain }
    {
        match self.ranks.get(usize::from(domain)) {
            Some(rank) => *rank,
            None => NO_RANK,
        }
    }

    /// Gives the domain the next rank, if it has none.
    fn add(&mut self, domain: u16)
        requires domain { domain < length self.old.ranks }
        requires few { self.old.width < NO_RANK }
        ensures { self.new ≡ with_rank self.old domain }
    {
        if self.rank(domain) == NO_RANK {
            self.ranks[usize::from(domain)] = self.width;
            self.width += 1;
        }
    }
}
