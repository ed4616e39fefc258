ghost use Rattle.std.specs.Prelude.{◌≡◌, Some, None, Option, is_some, true};
ghost use Rattle.std.specs.Coded.{coded_option};
ghost use Rattle.sm_relay.specs.declared.relay_server.RelayServer.{RelayServer as StateValue};
ghost use Rattle.sm_relay.specs.contracts.relay_server.RelayServer.{the_row as state_row};
ghost use Rattle.sm_kept.specs.Owns.{state_owns};

use crate::relay_server::RelayServer;
use sm_kept::BoxParts;
use std::alloc::Global;
use std::marker::Model;

/// A pointer that owns a state, or nothing.
#[repr(C)]
#[derive(Drop)]
pub struct OwnedRelay {
    ptr: *mut u8,
    alloc: Global,
    pub ghost state: { Option StateValue } by { coded_option state_row.coded },
}

impl Model for OwnedRelay {
    ghost also_owns = { λ h. state_owns state_row h.alloc h.ptr h.state };
}

impl OwnedRelay {
    /// Makes the owner of nothing.
    pub(crate) fn empty(alloc: Global) -> OwnedRelay
        ensures { result.state ≡ None }
    {
        OwnedRelay {
            ptr: std::ptr::null_mut(),
            alloc,
        }
    }

    /// Makes the owner of a box's state.
    pub(crate) fn of_parts(parts: BoxParts<RelayServer, Global>) -> OwnedRelay
        ensures { result.state ≡ Some parts.value }
    {
        let BoxParts { ptr, alloc } = parts;
        OwnedRelay {
            ptr: ptr as *mut u8,
            alloc,
        }
    }

    /// Returns the box of the state that is owned.
    pub(crate) fn into_parts(self) -> BoxParts<RelayServer, Global>
        requires { is_some self.state ≡ true }
        ensures { self.state ≡ Some result.value }
    {
        let OwnedRelay { ptr, alloc } = self;
        BoxParts {
            ptr: ptr as *mut RelayServer,
            alloc,
        }
    }
}

impl OwnedRelay {
    ghost use Rattle.std.specs.Borrow.{sem};
    ghost use Rattle.std.specs.Prelude.{◌≡◌, Some, is_some, true};
    ghost use Rattle.sm_relay.specs.Lending.{LendsRelay};

    /// Returns the state that is owned, to change it in its place.
    pub(crate) fn state_mut(&mut self) -> &mut RelayServer
        requires { is_some self.old.state ≡ true }
        ensures* writes_back { sem 𝓛 (LendsRelay self.entry result) }
        ensures value { self.old.state ≡ Some result.now }
    {
        unsafe { &mut *(self.ptr as *mut RelayServer) }
    }
}
