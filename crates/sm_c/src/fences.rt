//! Fencing tokens: numbers that a store compares, so that it refuses late writes.
ghost use Rattle.std.specs.Prelude.{◌≡◌, ◌≢◌, ◌<◌, ◌⊎◌, length};
ghost use Rattle.sm_foreign.specs.Refusals.{OpensNothing};
ghost use Rattle.sm_foreign.specs.declared.fence.TheConstants.{MAX_AFTER};
ghost use Rattle.sm_foreign.specs.declared.open_fault.OpenFault.{OpenFault as OpenFaultValue};
ghost use Rattle.sm_handle.specs.Acts.{HoldsNothing, TellsToken};
ghost use Rattle.sm_handle.specs.Opening.{IsOpened};
ghost use Rattle.sm_c.specs.Codes.{open_fault_code};

use crate::codes::{BAD_AFTER, WRONG_HANDLE, code_of_open, code_of_pass};
use sm_foreign::Fence;
use sm_handle::Handle;
use std::alloc::Global;

/// Opens a board as `durkenzo_open` does, whose fencing tokens are all above this number.
#[unsafe(no_mangle)]
pub extern "C" fn durkenzo_open_after(
    alloc: Global,
    chief: &mut Handle,
    numbers: &[u64],
    servers: u16,
    ops: u16,
    ceiling: u64,
    after: u64,
) -> u32
    ensures made { result ≡ 0 → IsOpened chief.new.owned.state numbers.now servers ops ceiling after }
    ensures refused { result ≢ 0 → ((result ≡ BAD_AFTER) × (MAX_AFTER < after)) ⊎ ((fault : OpenFaultValue)
        × OpensNothing (length numbers.now) servers ops ceiling fault × (result ≡ open_fault_code fault)) }
    ensures kept { result ≢ 0 → chief.new.owned.state ≡ chief.old.owned.state }
{
    let Some(fence) = Fence::new(after) else {
        return BAD_AFTER;
    };
    match chief.open(alloc, numbers, servers, ops, ceiling, fence) {
        Ok(()) => 0,
        Err(fault) => code_of_open(fault),
    }
}

/// Writes the fencing token of the admission of the pass. It is above the number after which the tokens of its board
/// begin, and so above each token of earlier boards.
#[unsafe(no_mangle)]
pub extern "C" fn durkenzo_token(pass: &mut Handle, token: &mut u64) -> u32
    ensures told { result ≡ 0 → TellsToken pass.old.owned.state token.new }
    ensures refused { result ≢ 0 → (result ≡ WRONG_HANDLE) × HoldsNothing pass.old.owned.state }
    ensures unchanged { pass.new.owned.state ≡ pass.old.owned.state }
    ensures unwritten { result ≢ 0 → token.new ≡ token.old }
{
    match pass.token() {
        Ok(told) => {
            *token = told;
            0
        }
        Err(fault) => code_of_pass(&fault),
    }
}
