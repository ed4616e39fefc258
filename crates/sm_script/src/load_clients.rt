ghost use Rattle.std.specs.Prelude.{◌≡◌, ◌↔◌, IsSome, IfSome};
ghost use Rattle.sm_script.specs.LoadClients.{IsLoadClients};

use crate::shape::MAX_CLIENTS;
use std::marker::Model;

/// How many clients add to a count in a load: 1 to 16.
#[derive(Clone, Copy, PartialEq, Eq, Drop)]
pub struct LoadClients {
    count: u8,
}

impl Model for LoadClients {
    ghost use Rattle.std.specs.Prelude.{ℕ};
    ghost use Rattle.sm_script.specs.LoadClients.{IsLoadClients};

    ghost Value = { ℕ };

    ghost view = { λ clients. clients.count };

    ghost invariant = { λ clients. IsLoadClients clients.count };

    ghost inverse = { λ count. record { count = count } };
}

impl LoadClients {
    /// Returns this number of clients, or nothing if it isn't 1 to 16.
    pub fn new(count: u8) -> Option<LoadClients>
        ensures known { IsSome result ↔ IsLoadClients count }
        ensures value { IfSome result (λ clients. clients ≡ count) }
    {
        if count >= 1 && u64::from(count) <= MAX_CLIENTS {
            Some(LoadClients { count })
        } else {
            None
        }
    }

    /// Returns how many clients there are.
    pub fn count(self) -> usize
        ensures value { result ≡ self }
        ensures in_range { IsLoadClients self }
    {
        usize::from(self.count)
    }
}
