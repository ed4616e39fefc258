use sm_place::BooksFault;
use sm_rule::MakeFault;
use thiserror::Error;

/// Why there is no board with its control.
#[derive(Clone, Copy, Debug, Drop, Error)]
pub enum OpenFault {
    /// The board has no shard or too many, or its ceiling is out of bounds; or memory for it was refused.
    #[error(transparent)]
    Board(MakeFault),
    /// The servers and shards are no books.
    #[error(transparent)]
    Books(BooksFault),
    /// The bodies aren't as many as the shards of the settings.
    #[error("the number of bodies isn't the number of shards in the settings")]
    Bodies,
    /// More than 4,095 servers.
    #[error("a board has at most 4,095 servers")]
    Servers,
    /// More than 4,095 restarts at once.
    #[error("a board has at most 4,095 restarts at once")]
    Restarts,
    /// Memory was refused.
    #[error("out of memory")]
    NoMemory,
}
