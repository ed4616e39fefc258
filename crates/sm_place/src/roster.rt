ghost use Rattle.std.specs.Prelude.{◌≡◌, ◌≤◌, ◌↔◌, ◌==◌, IfOk, IfSome, IsTrue, length, map, option_map};
ghost use Rattle.sm_place.specs.Cells.{cell_of, ArePlaces, AreCells};
ghost use Rattle.std.specs.List.Sorted.{IsStrictlyIncreasing};
ghost use Rattle.sm_ranges.specs.declared.limits.TheConstants.{MAX_SERVER};
ghost use Rattle.sm_place.specs.Ranks.{AreRanked};
ghost use Rattle.sm_ranges.specs.Stand.{passes, AllNamed};
ghost use Rattle.sm_place.specs.Room.{names_domain};
ghost use Rattle.sm_place.specs.Books.{domain_of, IsKnown, place_of, row_by_id};

use crate::ranks::Ranks;
use sm_ranges::limits::MAX_SERVER;
use sm_ranges::server_id::ServerId;
use sm_ranges::stand::Stand;
use sm_rows::ServerRow;
use std::alloc::{AllocError, Global};
use std::marker::Model;

/// How many numbers a server can have, including 0.
const SERVER_NUMBERS: usize = MAX_SERVER as usize + 1;

/// The rows of the servers. Each is found by its server's number.
#[derive(Drop)]
pub struct Roster {
    rows: Vec<ServerRow>,
    // by number: the place of the row, or the number of rows if the server has none
    places: Vec<u16>,
}

impl Model for Roster {
    ghost use Rattle.std.specs.Prelude.{List};
    ghost use Rattle.sm_rows.specs.declared.server_row.ServerRow.{ServerRow};
    ghost use Rattle.sm_place.specs.Counters.{HasPlaces};

    ghost Value = { List ServerRow };

    ghost view = { λ r. r.rows.items };

    ghost invariant = { λ r. HasPlaces r.rows.items r.places.items };
}

impl Roster {
    /// Makes a roster of these rows. Their numbers must rise.
    pub fn new(alloc: Global, rows: &[ServerRow]) -> Result<Roster, AllocError>
        requires rise { IsStrictlyIncreasing (map (λ row. row.id) rows.now) }
        requires few { length rows.now ≤ MAX_SERVER }
        ensures { IfOk result (λ r. r ≡ rows.now) }
    {
        let mut places = vec![in alloc; rows.len() as u16; SERVER_NUMBERS]?;
        for (at, row) in rows.iter().enumerate() {
            places[usize::from(row.id.number())] = at as u16;
        }
        Ok(Roster {
            rows: Vec::from_slice(alloc, rows)?,
            places,
        })
    }

    /// Returns the rows.
    pub fn rows(&self) -> &[ServerRow]
        ensures { result.now ≡ self.now }
    {
        &self.rows
    }

    /// Returns the place of the server's row, or the number of rows if it has none.
    pub fn place(&self, a: ServerId) -> usize
        ensures { result ≡ place_of self.now a }
    {
        usize::from(self.places[usize::from(a.number())])
    }

    /// Returns the row of the server.
    pub fn row(&self, a: ServerId) -> ServerRow
        requires { IsKnown self.now a }
        ensures { result ≡ row_by_id self.now a }
    {
        self.rows[self.place(a)]
    }

    /// Returns whether the server has a row.
    pub fn knows(&self, a: ServerId) -> bool
        ensures { IsTrue result ↔ IsKnown self.now a }
    {
        self.place(a) < self.rows.len()
    }

    /// Returns the places of the servers that the stand names.
    pub(crate) fn places_of(&self, stand: &Stand) -> (Option<usize>, Option<usize>)
        ensures { ArePlaces self.now stand.now result.0 result.1 }
    {
        (self.place_at(stand.owner()), self.place_at(stand.other()))
    }

    /// Returns the place of the row, if there is a server.
    fn place_at(&self, server: Option<ServerId>) -> Option<usize>
        ensures { result ≡ option_map (place_of self.now) server }
    {
        match server {
            Some(a) => Some(self.place(a)),
            None => None,
        }
    }

    /// Returns whether the stand names a server of the domain.
    pub(crate) fn names_domain(&self, stand: &Stand, domain: u16) -> bool
        requires { AllNamed (IsKnown self.now) stand.now }
        ensures { result ≡ names_domain self.now stand.now domain }
    {
        self.is_in(stand.owner(), domain) || self.is_in(stand.other(), domain)
    }

    /// Returns whether there is a server and it is in the domain.
    fn is_in(&self, server: Option<ServerId>, domain: u16) -> bool
        requires { IfSome server (IsKnown self.now) }
        ensures { result ≡ passes (λ a. domain_of self.now a == domain) server }
    {
        match server {
            Some(a) => self.row(a).domain == domain,
            None => false,
        }
    }

    /// Returns the counter of the group and the server's domain. Each group has a counter for each domain that has a
    /// rank.
    pub(crate) fn cell(&self, ranks: &Ranks, group: u16, a: ServerId) -> usize
        requires known { IsKnown self.now a }
        requires ranked { AreRanked self.now ranks.now }
        ensures { result ≡ cell_of self.now ranks.now group a }
    {
        usize::from(group) * ranks.width() + usize::from(ranks.rank(self.row(a).domain))
    }

    /// Returns the counters of the group and the domains of the servers that the stand names.
    pub(crate) fn cells_of(
        &self,
        ranks: &Ranks,
        group: u16,
        stand: &Stand,
    ) -> (Option<usize>, Option<usize>)
        requires known { AllNamed (IsKnown self.now) stand.now }
        requires ranked { AreRanked self.now ranks.now }
        ensures { AreCells self.now ranks.now group stand.now result.0 result.1 }
    {
        (
            self.cell_at(ranks, group, stand.owner()),
            self.cell_at(ranks, group, stand.other()),
        )
    }

    /// Returns the counter, if there is a server.
    fn cell_at(&self, ranks: &Ranks, group: u16, server: Option<ServerId>) -> Option<usize>
        requires known { IfSome server (IsKnown self.now) }
        requires ranked { AreRanked self.now ranks.now }
        ensures { result ≡ option_map (cell_of self.now ranks.now group) server }
    {
        match server {
            Some(a) => Some(self.cell(ranks, group, a)),
            None => None,
        }
    }
}
