ghost use Rattle.std.specs.Prelude.{◌≡◌, IfErr, IfOk, None};
ghost use Rattle.sm_foreign.specs.Chiefs.{HasNoPass, HasServer};
ghost use Rattle.sm_foreign.specs.Holding.{HasNotActed};

use crate::chief::Chief;
use crate::fence::Fence;
use crate::foreign::Foreign;
use crate::foreign_pass::ForeignPass;
use crate::pass_fault::PassFault;
use sm_ranges::server_id::ServerId;

/// A board of foreign bodies with its control, and the fence of its tokens.
#[derive(Drop)]
pub struct ForeignChief {
    pub held: Box<Chief<Foreign>>,
    pub fence: Fence,
}

impl ForeignChief {
    /// Returns a new pass to foreign bodies, admitted as this server, which the board has, or never.
    pub fn pass(&self, server: Option<ServerId>) -> Result<ForeignPass, PassFault>
        ensures board { IfOk result (λ pass. pass.held.0.board ≡ self.now.held.value.chair.board) }
        ensures server { IfOk result (λ pass. pass.held.0.server ≡ server) }
        ensures new { IfOk result (λ pass. HasNotActed pass.held.0) }
        ensures known { IfOk result (λ pass. HasServer self.now.held.value.desk.books server) }
        ensures free { IfOk result (λ pass. pass.held.1 ≡ None) }
        ensures fence { IfOk result (λ pass. pass.fence.after ≡ self.now.fence.after) }
        ensures refused { IfErr result (HasNoPass self.now.held.value.desk.books server) }
    {
        let held = self.held.foreign_pass(server)?;
        Ok(ForeignPass {
            held,
            fence: self.fence,
        })
    }
}
