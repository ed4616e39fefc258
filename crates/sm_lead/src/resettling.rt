//! Whether other settings may come in place of a control's.

ghost use Rattle.std.specs.Prelude.{◌≡◌};
ghost use Rattle.std.specs.Result.{result_err};
ghost use Rattle.sm_lead.specs.Resettlings.{first_in_use, is_in_use, resettle_fault};

use crate::resettle_fault::ResettleFault;
use crate::store_control::StoreControl;
use sm_desk::Desk;
use sm_ranges::server_id::ServerId;

impl StoreControl {
    /// Checks whether the settings of the other control may replace this one's, which leads. Fails with the first fault
    /// that applies. The other control must be made from its settings with the same records and states, so these fit
    /// its settings: each server that a shard names has a row, there is room, and the caps of approved restarts are
    /// met.
    pub fn resettle(&self, other: &StoreControl) -> Result<(), ResettleFault>
        ensures { result_err result ≡ resettle_fault self.now other.now }
    {
        if other.placed != self.placed {
            return Err(ResettleFault::Apart);
        }
        if other.desk.books().shards().len() != self.desk.books().shards().len() {
            return Err(ResettleFault::OtherShards);
        }
        if other.ceiling != self.ceiling {
            return Err(ResettleFault::OtherCeiling);
        }
        match self.first_in_use(other) {
            Some(server) => Err(ResettleFault::InUse(server)),
            None => Ok(()),
        }
    }

    // Returns the first server that requests reach and for which the other control has no row.
    fn first_in_use(&self, other: &StoreControl) -> Option<ServerId>
        ensures { result ≡ first_in_use self.now.desk other.now.desk }
    {
        let found = self
            .desk
            .books()
            .rows()
            .iter()
            .find(|row| is_in_use(&self.desk, &other.desk, row.id));
        match found {
            Some(row) => Some(row.id),
            None => None,
        }
    }
}

// Whether requests reach the server, and the other desk has no row of it.
fn is_in_use(desk: &Desk, other: &Desk, server: ServerId) -> bool
    ensures { result ≡ is_in_use desk.now other.now server }
{
    desk.reaches(server) && !other.knows(server)
}
