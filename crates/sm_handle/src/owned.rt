ghost use Rattle.std.specs.Prelude.{◌≡◌, Some, None, Option, is_some, true};
ghost use Rattle.std.specs.Coded.{coded_option};
ghost use Rattle.sm_handle_state.specs.declared.handle_state.HandleState.{HandleState as StateValue};
ghost use Rattle.sm_handle_state.specs.contracts.handle_state.HandleState.{the_row as state_row};
ghost use Rattle.sm_kept.specs.Owns.{state_owns};

use sm_handle_state::HandleState;
use sm_kept::BoxParts;
use std::alloc::Global;
use std::marker::Model;

/// A pointer that owns a state, or nothing.
#[repr(C)]
#[derive(Drop)]
pub struct Owned {
    ptr: *mut u8,
    alloc: Global,
    pub ghost state: { Option StateValue } by { coded_option state_row.coded },
}

impl Model for Owned {
    ghost also_owns = { λ h. state_owns state_row h.alloc h.ptr h.state };
}

impl Owned {
    /// Makes the owner of nothing.
    pub(crate) fn empty(alloc: Global) -> Owned
        ensures { result.state ≡ None }
    {
        Owned {
            ptr: std::ptr::null_mut(),
            alloc,
        }
    }

    /// Makes the owner of a box's state.
    pub(crate) fn of_parts(parts: BoxParts<HandleState, Global>) -> Owned
        ensures { result.state ≡ Some parts.value }
    {
        let BoxParts { ptr, alloc } = parts;
        Owned {
            ptr: ptr as *mut u8,
            alloc,
        }
    }

    /// Returns the box of the state that is owned.
    pub(crate) fn into_parts(self) -> BoxParts<HandleState, Global>
        requires { is_some self.state ≡ true }
        ensures { self.state ≡ Some result.value }
    {
        let Owned { ptr, alloc } = self;
        BoxParts {
            ptr: ptr as *mut HandleState,
            alloc,
        }
    }
}

impl Owned {
    ghost use Rattle.std.specs.Borrow.{sem};
    ghost use Rattle.std.specs.Prelude.{◌≡◌, Some, is_some, true};
    ghost use Rattle.sm_handle.specs.Lending.{LendsState};

    /// Returns the state that is owned, to change it in its place.
    pub(crate) fn state_mut(&mut self) -> &mut HandleState
        requires { is_some self.old.state ≡ true }
        ensures* writes_back { sem 𝓛 (LendsState self.entry result) }
        ensures value { self.old.state ≡ Some result.now }
    {
        unsafe { &mut *(self.ptr as *mut HandleState) }
    }
}
