//! How passes tell each other how much they have seen.
ghost use Rattle.std.specs.Prelude.{◌≡◌, ◌≢◌, None};
ghost use Rattle.sm_handle.specs.Notes.{AreOfOneBoard, IsSplitFrom, MeetsHandle, SplitsNothing, TellsNothing};
ghost use Rattle.sm_c.specs.Codes.{IsCodeOf};

use crate::codes::{WRONG_HANDLE, code_of_act};
use sm_handle::Handle;
use std::alloc::Global;

/// Makes a new pass with the server of the other one, which has seen everything that that one has seen. The pass's
/// handle keeps it, in place of its earlier state.
#[unsafe(no_mangle)]
pub extern "C" fn durkenzo_split(alloc: Global, from: &mut Handle, pass: &mut Handle) -> u32
    ensures from { from.new.owned.state ≡ from.old.owned.state }
    ensures made { result ≡ 0 → IsSplitFrom from.old.owned.state pass.new.owned.state }
    ensures refused { result ≢ 0 → IsCodeOf (SplitsNothing from.old.owned.state) result }
    ensures kept { result ≢ 0 → pass.new.owned.state ≡ pass.old.owned.state }
{
    match pass.split(alloc, from) {
        Ok(()) => 0,
        Err(fault) => code_of_act(fault),
    }
}

/// Tells the pass everything that another pass of its board had seen. The other handle then keeps nothing.
#[unsafe(no_mangle)]
pub extern "C" fn durkenzo_meet(alloc: Global, pass: &mut Handle, other: &mut Handle) -> u32
    requires { AreOfOneBoard pass.old.owned.state other.old.owned.state }
    ensures met { result ≡ 0 → MeetsHandle pass.old.owned.state other.old.owned.state pass.new.owned.state }
    ensures gone { result ≡ 0 → other.new.owned.state ≡ None }
    ensures refused { result ≢ 0
        → (result ≡ WRONG_HANDLE) × TellsNothing pass.old.owned.state other.old.owned.state }
    ensures kept { result ≢ 0 → pass.new.owned.state ≡ pass.old.owned.state }
    ensures back { result ≢ 0 → other.new.owned.state ≡ other.old.owned.state }
{
    match pass.meet(alloc, other) {
        Ok(()) => 0,
        Err(fault) => code_of_act(fault),
    }
}
