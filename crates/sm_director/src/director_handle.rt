ghost use Rattle.std.specs.Prelude.{◌≡◌, Some, None, OnErr, OnOk, is_some, true};

use crate::director::Director;
use crate::owned_director::OwnedDirector;
use sm_kept::BoxParts;
use std::alloc::{AllocError, Global};

/// The state that a caller in C keeps, 16 bytes. It must begin as bytes of 0, must not be copied, and must be used by
/// one call at a time.
#[repr(C)]
#[derive(Drop)]
pub struct DirectorHandle {
    pub(crate) full: bool,
    pub(crate) owned: OwnedDirector,
    ghost tied: { is_some owned.state ≡ full },
}

impl DirectorHandle {
    /// Returns a handle that keeps nothing, as one of bytes of 0 does.
    pub fn new(alloc: Global) -> DirectorHandle
        ensures { result.owned.state ≡ None }
    {
        DirectorHandle {
            full: false,
            owned: OwnedDirector::empty(alloc),
        }
    }

    /// Keeps the state, and drops the earlier one. It fails only if memory is refused, and then the handle is as it
    /// was.
    pub fn keep(&mut self, alloc: Global, state: Director) -> Result<(), AllocError>
        ensures kept { OnOk result (self.new.owned.state ≡ Some state) }
        ensures refused { OnErr result (self.new.owned.state ≡ self.old.owned.state) }
    {
        if self.full {
            *self.owned.state_mut() = state;
            return Ok(());
        }
        let state = Box::new(alloc, state)?;
        self.put(state);
        Ok(())
    }

    /// Keeps the state. The handle must keep nothing before, because that would never be dropped.
    pub(crate) fn put(&mut self, state: Box<Director>)
        requires { self.old.owned.state ≡ None }
        ensures { self.new.owned.state ≡ Some state.value }
    {
        *self = DirectorHandle {
            full: true,
            owned: OwnedDirector::of_parts(BoxParts::of(state)),
        };
    }

    /// Drops the state.
    pub fn close(&mut self, alloc: Global)
        ensures { self.new.owned.state ≡ None }
    {
        let DirectorHandle { full, owned } = std::mem::replace(self, DirectorHandle::new(alloc));
        if full {
            let _ = owned.into_parts().into_box();
        }
    }
}
