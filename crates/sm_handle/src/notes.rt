//! How passes in handles tell each other how much they have seen.
ghost use Rattle.std.specs.Prelude.{◌≡◌, IfErr, None, OnOk, Some};
ghost use Rattle.sm_handle_state.specs.Notes.{AreOfOneBoard, IsSplitFrom, MeetsHandle, SplitsNothing, TellsNothing};

use crate::handle::Handle;
use sm_handle_state::notes::{meet_in, split_of};
use sm_handle_state::{ActFault, HandleState};
use std::alloc::Global;

impl Handle {
    /// Keeps a new pass with the server of the other handle's pass, which has seen everything that that pass has seen,
    /// in place of the earlier state. If there is a fault, returns it, and this handle is as it was. The other one is
    /// as it was.
    pub fn split(&mut self, alloc: Global, from: &mut Handle) -> Result<(), ActFault>
        ensures from { from.new.owned.state ≡ from.old.owned.state }
        ensures made { OnOk result (IsSplitFrom from.old.owned.state self.new.owned.state) }
        ensures refused { IfErr result (SplitsNothing from.old.owned.state) }
        ensures kept { IfErr result (λ fault. self.new.owned.state ≡ self.old.owned.state) }
    {
        if !from.full {
            return Err(ActFault::WrongHandle);
        }
        let made = split_of(from.owned.state_mut())?;
        match self.keep(alloc, made) {
            Ok(()) => Ok(()),
            Err(_) => Err(ActFault::NoMemory),
        }
    }

    /// Tells the pass that the handle keeps everything that the other handle's pass of its board had seen, or the
    /// history of its answer. The other handle then keeps nothing. If there is a fault, returns it, and both are as
    /// they were. A pass that holds a permit neither tells nor is told.
    pub fn meet(&mut self, alloc: Global, other: &mut Handle) -> Result<(), ActFault>
        requires { AreOfOneBoard self.old.owned.state other.old.owned.state }
        ensures met { OnOk result (MeetsHandle self.old.owned.state other.old.owned.state self.new.owned.state) }
        ensures gone { OnOk result (other.new.owned.state ≡ None) }
        ensures fault { IfErr result (λ fault. fault ≡ ActFault.WrongHandle) }
        ensures refused { IfErr result (λ fault. TellsNothing self.old.owned.state other.old.owned.state) }
        ensures kept { IfErr result (λ fault. self.new.owned.state ≡ self.old.owned.state) }
        ensures back { IfErr result (λ fault. other.new.owned.state ≡ other.old.owned.state) }
    {
        if !self.full || !other.full {
            return Err(ActFault::WrongHandle);
        }
        let told = std::mem::replace(other.owned.state_mut(), HandleState::Empty);
        match meet_in(self.owned.state_mut(), told) {
            None => {
                other.close(alloc);
                Ok(())
            }
            Some(back) => {
                *other.owned.state_mut() = back;
                Err(ActFault::WrongHandle)
            }
        }
    }
}
