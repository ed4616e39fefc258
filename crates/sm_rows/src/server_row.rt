ghost use Rattle.std.specs.Prelude.{◌≡◌};
ghost use Rattle.std.specs.List.{list_all};
ghost use Rattle.sm_rows.specs.Rows.{are_rising, are_servers, is_server_row};

use crate::limits::MAX_DOMAIN;
use sm_ranges::limits::MAX_SERVER;
use sm_ranges::server_id::ServerId;

/// A server, from the settings.
#[derive(Clone, Copy, PartialEq, Eq, Drop)]
pub struct ServerRow {
    /// The number of the server.
    pub id: ServerId,
    /// The fault domain, 0 to 4,095. Servers in one domain tend to fail together.
    pub domain: u16,
    /// The loads of the shards that name the server must not add up to more than this, 0 to 4,294,967,295.
    pub capacity: u32,
}

impl ServerRow {
    /// Returns whether each number of the row is in its range.
    pub fn is_in_range(&self) -> bool
        ensures { result ≡ is_server_row self.now }
    {
        // The other two numbers are in their ranges because of their types.
        prove!(self.id.number() <= 4095);
        prove!(self.capacity <= u32::MAX);
        self.domain <= MAX_DOMAIN
    }
}

/// Returns whether there are 1 to 4,095 rows with rising numbers, each in its range.
pub fn are_servers(rows: &[ServerRow]) -> bool
    ensures { result ≡ are_servers rows.now }
{
    !rows.is_empty()
        && rows.len() <= usize::from(MAX_SERVER)
        && rows_in_range(rows)
        && are_rising(rows)
}

fn rows_in_range(rows: &[ServerRow]) -> bool
    ensures { result ≡ list_all is_server_row rows.now }
{
    rows.iter().all(|row| row.is_in_range())
}

fn are_rising(rows: &[ServerRow]) -> bool
    ensures { result ≡ are_rising rows.now }
{
    rows.iter()
        .zip(rows.iter().skip(1))
        .all(|(row, next)| row.id.number() < next.id.number())
}
