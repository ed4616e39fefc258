//! The counters of a server.
ghost use Rattle.std.specs.Prelude.{◌≡◌};

use crate::counts::ServerCounts;
use crate::fate::{FATES, Fate};
use sm_ranges::server_id::ServerId;
use sm_server::Outcome;
use std::array;
use std::sync::atomic::{AtomicU64, Ordering};

/// The counters of a server's workers and its door.
#[derive(Drop)]
pub struct Tally {
    // By the fates' places.
    counters: [AtomicU64; FATES],
}

impl Tally {
    /// Returns a tally of nothing.
    pub fn new() -> Tally {
        Tally {
            counters: array::from_fn(|_| AtomicU64::new(0)),
        }
    }

    /// Counts a step of the server, by the fate of the envelope.
    pub fn count<A, E>(&self, outcome: &Outcome<A, E>) {
        self.count_fate(Fate::of(outcome));
    }

    /// Counts an envelope that found the server's door shut.
    pub fn count_unreachable(&self) {
        self.count_fate(Fate::Unreachable);
    }

    fn count_fate(&self, fate: Fate) {
        self.counters[fate as usize].fetch_add(1, Ordering::SeqCst);
    }

    /// Returns the counts of this server.
    pub fn counts(&self, server: ServerId) -> ServerCounts
        ensures { result.server ≡ server }
    {
        ServerCounts {
            server,
            by_fate: self
                .counters
                .each_ref()
                .map(|counter| counter.load(Ordering::SeqCst)),
        }
    }
}
