ghost use Rattle.std.specs.Prelude.{◌≡◌};
ghost use Rattle.sm_place.specs.Books.{first_books_fault};

use sm_rows::{
    DomainRow, GroupRow, ServerRow, ShardRow, are_domains, are_groups, are_servers, are_shards,
};
use std::alloc::AllocError;
use thiserror::Error;

/// Why rows are not books: the first reason that applies, in this order.
#[derive(Clone, Copy, Debug, PartialEq, Eq, Drop, Error)]
pub enum BooksFault {
    /// There are not 1 to 4,095 servers, their numbers do not rise, or a domain is above 4,095.
    #[error("the servers break their rules")]
    BadServers,
    /// There are not 1 to 4,096 groups, or a limit or `down` is above 4,096.
    #[error("the groups break their rules")]
    BadGroups,
    /// There are not 1 to 4,096 shards, or a shard's group has no row or its cap is above 1.
    #[error("the shards break their rules")]
    BadShards,
    /// The domains are not those of the servers, each once by rising numbers, or a `down` is above 4,095.
    #[error("the domains break their rules")]
    BadDomains,
    /// The rows keep their rules, but memory for the books was refused.
    #[error("out of memory")]
    NoMemory,
}

impl BooksFault {
    /// Returns the first fault of the rows, except for lack of memory.
    pub(crate) fn first(
        servers: &[ServerRow],
        groups: &[GroupRow],
        shards: &[ShardRow],
        domains: &[DomainRow],
    ) -> Option<BooksFault>
        ensures { result ≡ first_books_fault servers.now groups.now shards.now domains.now }
    {
        if !are_servers(servers) {
            return Some(BooksFault::BadServers);
        }
        if !are_groups(groups) {
            return Some(BooksFault::BadGroups);
        }
        if !are_shards(groups.len(), shards) {
            return Some(BooksFault::BadShards);
        }
        if !are_domains(servers, domains) {
            return Some(BooksFault::BadDomains);
        }
        None
    }
}

impl From<AllocError> for BooksFault {
    ghost use Rattle.sm_place.specs.declared.books_fault.BooksFault.TheVariants.{NoMemory};

    ghost from_gives = { λ _ fault. fault ≡ NoMemory };

    fn from(_: AllocError) -> Self {
        BooksFault::NoMemory
    }
}
