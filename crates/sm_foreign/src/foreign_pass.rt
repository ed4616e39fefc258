ghost use Rattle.std.specs.Prelude.{◌≡◌, ◌<◌, ◌≤◌, ◌+◌, IfNone, IfOk, IfSome, None};
ghost use Rattle.sm_ownership.specs.declared.record.TheConstants.{MAX_GENERATION};
ghost use Rattle.sm_rule.specs.Views.{Begins};
ghost use Rattle.sm_foreign.specs.Holding.{token_of};

use crate::board_pass::BoardPass;
use crate::fence::Fence;
use crate::foreign::Foreign;
use std::alloc::AllocError;

/// A pass to foreign bodies, and the fence of its board. Dropping the pass ends its admission.
pub struct ForeignPass {
    pub held: BoardPass<Foreign>,
    pub fence: Fence,
}

impl ForeignPass {
    /// Returns the pass.
    pub fn into_held(self) -> BoardPass<Foreign>
        ensures { result ≡ self.held }
    {
        let ForeignPass { held, fence: _ } = self;
        held
    }

    /// Returns the fencing token of the admission that the pass holds, if any. It is above the fence of the board, and
    /// so above each token of earlier boards.
    pub fn token(&self) -> Option<u64>
        ensures token { result ≡ token_of self.now.fence.after self.now.held.0 }
        ensures above { IfSome result (λ token. self.now.fence.after < token) }
        ensures low { IfSome result (λ token. token ≤ self.now.fence.after + MAX_GENERATION) }
        ensures free { IfNone result (self.now.held.1 ≡ None) }
    {
        match self.held.generation() {
            Some(generation) => Some(self.fence.token(generation)),
            None => None,
        }
    }

    /// Returns a new pass with the same server, which has seen everything that this one has seen. It fails only if
    /// memory is refused.
    pub fn split(&mut self) -> Result<ForeignPass, AllocError>
        ensures unchanged { self.new ≡ self.old }
        ensures board { IfOk result (λ pass. pass.held.0.board ≡ self.old.held.0.board) }
        ensures server { IfOk result (λ pass. pass.held.0.server ≡ self.old.held.0.server) }
        ensures seen { IfOk result (λ pass. Begins self.old.held.0.seen pass.held.0.seen) }
        ensures free { IfOk result (λ pass. pass.held.1 ≡ None) }
        ensures fence { IfOk result (λ pass. pass.fence.after ≡ self.old.fence.after) }
    {
        let held = self.held.split()?;
        Ok(ForeignPass {
            held,
            fence: self.fence,
        })
    }
}

impl Drop for ForeignPass {
    fn drop(self) {
        let ForeignPass { held, fence: _ } = self;
        held.end();
    }
}
