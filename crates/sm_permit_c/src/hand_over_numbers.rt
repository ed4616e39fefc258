ghost use Rattle.std.specs.Prelude.{◌≡◌, IfNone, IfSome};
ghost use Rattle.sm_permit_c.specs.Numbers.{IsBadServer, hand_over_numbers};

use sm_permit::HandOver;
use sm_ranges::server_id::ServerId;

/// The contents of handed-over bytes, as C sees them.
#[repr(C)]
#[derive(Clone, Copy, Drop)]
pub struct HandOverNumbers {
    /// The revision at which the process that let go put its server's key into the store.
    pub joined: u64,
    /// The generation of the record up to which it has let go.
    pub generation: u64,
    pub server: u16,
}

impl HandOverNumbers {
    /// Returns the contents with these numbers, or nothing if the server isn't one.
    pub(crate) fn hand_over(&self) -> Option<HandOver>
        ensures made { IfSome result (λ hand. self.now ≡ hand_over_numbers hand) }
        ensures none { IfNone result (IsBadServer self.now.server) }
    {
        let server = ServerId::new(self.server)?;
        Some(HandOver {
            server,
            joined: self.joined,
            generation: self.generation,
        })
    }
}
