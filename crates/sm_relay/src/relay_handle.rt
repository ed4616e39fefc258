ghost use Rattle.std.specs.Prelude.{◌≡◌, Some, None, OnErr, OnOk, is_some, true};

use crate::owned_relay::OwnedRelay;
use crate::relay_server::RelayServer;
use sm_kept::BoxParts;
use std::alloc::{AllocError, Global};

/// The state that a caller in C keeps, 16 bytes. It must begin as bytes of 0, must not be copied, and must be used by
/// one call at a time.
#[repr(C)]
#[derive(Drop)]
pub struct RelayHandle {
    pub(crate) full: bool,
    pub(crate) owned: OwnedRelay,
    ghost tied: { is_some owned.state ≡ full },
}

impl RelayHandle {
    /// Returns a handle that keeps nothing, as one of bytes of 0 does.
    pub fn new(alloc: Global) -> RelayHandle
        ensures { result.owned.state ≡ None }
    {
        RelayHandle {
            full: false,
            owned: OwnedRelay::empty(alloc),
        }
    }

    /// Keeps the state, and drops the earlier one. It fails only if memory is refused, and then the handle is as it
    /// was.
    pub fn keep(&mut self, alloc: Global, state: RelayServer) -> Result<(), AllocError>
        ensures kept { OnOk result (self.new.owned.state ≡ Some state) }
        ensures refused { OnErr result (self.new.owned.state ≡ self.old.owned.state) }
    {
        if self.full {
            *self.owned.state_mut() = state;
            return Ok(());
        }
        let state = Box::new(alloc, state)?;
        self.put(state);
        Ok(())
    }

    /// Keeps the state. The handle must keep nothing before, because that would never be dropped.
    pub(crate) fn put(&mut self, state: Box<RelayServer>)
        requires { self.old.owned.state ≡ None }
        ensures { self.new.owned.state ≡ Some state.value }
    {
        *self = RelayHandle {
            full: true,
            owned: OwnedRelay::of_parts(BoxParts::of(state)),
        };
    }

    /// Drops the state.
    pub fn close(&mut self, alloc: Global)
        ensures { self.new.owned.state ≡ None }
    {
        let RelayHandle { full, owned } = std::mem::replace(self, RelayHandle::new(alloc));
        if full {
            let _ = owned.into_parts().into_box();
        }
    }
}
