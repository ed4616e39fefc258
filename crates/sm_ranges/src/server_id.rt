ghost use Rattle.std.specs.Prelude.{◌≡◌, ◌↔◌, IsSome, IfSome};

use crate::limits::MAX_SERVER;
use std::fmt;
use std::marker::Model;

/// The number of a server, 1 to 4,095.
#[derive(Clone, Copy, Debug, PartialEq, Eq, PartialOrd, Ord, Drop)]
pub struct ServerId {
    number: u16,
}

impl Model for ServerId {
    ghost use Rattle.std.specs.Prelude.{ℕ};
    ghost use Rattle.sm_ranges.specs.ServerId.{IsServer};

    ghost Value = { ℕ };

    ghost view = { λ server. server.number };

    ghost invariant = { λ server. IsServer server.number };

    ghost inverse = { λ number. record { number = number } };
}

impl ServerId {
    ghost use Rattle.sm_ranges.specs.ServerId.{IsServer};

    /// Returns the server with this number, if it is 1 to 4,095.
    pub fn new(number: u16) -> Option<ServerId>
        ensures known { IsSome result ↔ IsServer number }
        ensures value { IfSome result (λ server. server ≡ number) }
    {
        if number >= 1 && number <= MAX_SERVER {
            Some(ServerId { number })
        } else {
            None
        }
    }

    /// Returns the server with this number, which must be 1 to 4,095.
    pub fn of(number: u16) -> ServerId
        requires { IsServer number }
        ensures { result ≡ number }
    {
        ServerId { number }
    }

    /// Returns the number of the server.
    pub fn number(self) -> u16
        ensures value { result ≡ self }
        ensures in_range { IsServer self }
    {
        self.number
    }
}

impl fmt::Display for ServerId {
    fn fmt<W: fmt::Write>(&self, f: &mut fmt::Formatter<W>) -> fmt::Result {
        write!(f, "{}", self.number)
    }
}
