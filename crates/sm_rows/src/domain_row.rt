ghost use Rattle.std.specs.Prelude.{◌≡◌, ◌≤◌, ◌<◌, ◌&&◌, ◌==◌, ℕ, IfOk, false, length, map, nat_lt};
ghost use Rattle.std.specs.Prelude.{slice_index_or};
ghost use Rattle.std.specs.List.{list_all};
ghost use Rattle.sm_rows.specs.Domains.{are_domains, are_same, domains_of, equal_domains, is_domain_row, is_used};

use crate::limits::{MAX_DOMAIN, MAX_DOMAIN_DOWN};
use crate::server_row::ServerRow;
use std::alloc::{AllocError, Global};

/// The greatest number of domains.
const DOMAINS: usize = MAX_DOMAIN as usize + 1;

/// A fault domain, from the settings.
#[derive(Clone, Copy, PartialEq, Eq, Drop)]
pub struct DomainRow {
    /// The fault domain, 0 to 4,095.
    pub domain: u16,
    /// How many of its servers may be down for planned restarts at once, 0 to 4,095.
    pub down: u16,
}

impl DomainRow {
    /// Returns whether each number of the row is in its range.
    pub fn is_in_range(&self) -> bool
        ensures { result ≡ is_domain_row self.now }
    {
        self.domain <= MAX_DOMAIN && self.down <= MAX_DOMAIN_DOWN
    }
}

/// Returns whether the rows are those of the servers' domains: one row for each domain that a server is in, in rising
/// order, with each number in its range. It takes no memory.
pub fn are_domains(servers: &[ServerRow], rows: &[DomainRow]) -> bool
    ensures { result ≡ are_domains servers.now rows.now }
{
    are_those_used(servers, rows) && rows_in_range(rows)
}

/// Returns a row with this `down` for each domain that a server is in, in rising order.
pub fn equal_domains(
    alloc: Global,
    servers: &[ServerRow],
    down: u16,
) -> Result<Vec<DomainRow>, AllocError>
    ensures { IfOk result (λ rows. rows.items ≡ equal_domains down servers.now) }
{
    let used = domains_used(servers);
    let mut rows = Vec::new(alloc);
    for domain in 0..DOMAINS {
        if used[domain] {
            rows.push(DomainRow {
                domain: domain as u16,
                down,
            })?;
        }
    }
    Ok(rows)
}

// Returns whether the rows are those of the servers' domains, in rising order.
fn are_those_used(servers: &[ServerRow], rows: &[DomainRow]) -> bool
    ensures { result ≡ are_same (map (λ row. row.domain) rows.now) (domains_of servers.now) }
{
    let used = domains_used(servers);
    let mut at = 0;
    for domain in 0..DOMAINS {
        if used[domain] {
            if !is_at(rows, at, domain) {
                return false;
            }
            at += 1;
        }
    }
    at == rows.len()
}

// Returns whether there is a row at this place, and it is the domain's.
fn is_at(rows: &[DomainRow], at: usize, domain: usize) -> bool
    ensures { let numbers = map (λ row. row.domain) rows.now in
        result ≡ (nat_lt at (length numbers) && (slice_index_or numbers at 0 == domain)) }
{
    match rows.get(at) {
        Some(row) => usize::from(row.domain) == domain,
        None => false,
    }
}

// Returns, for each domain, whether a server is in it.
fn domains_used(servers: &[ServerRow]) -> [bool; DOMAINS]
    ensures { (d : ℕ) → d ≤ MAX_DOMAIN → slice_index_or result d false ≡ is_used servers.now d }
{
    let mut used = [false; DOMAINS];
    for server in servers {
        if server.domain <= MAX_DOMAIN {
            used[usize::from(server.domain)] = true;
        }
    }
    used
}

fn rows_in_range(rows: &[DomainRow]) -> bool
    ensures { result ≡ list_all is_domain_row rows.now }
{
    rows.iter().all(|row| row.is_in_range())
}
