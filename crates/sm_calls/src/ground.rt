//! The common ground of a cluster's clients and its messages.
ghost use Rattle.std.specs.Prelude.{◌≡◌};
ghost use Rattle.sm_calls.specs.Passes.{IsNewPass};

use sm_body::service::Service;
use sm_ranges::layout::Layout;
use sm_ranges::server_id::ServerId;
use sm_rule::board::Board;
use sm_rule::note::Note;
use sm_rule::pass::Pass;

/// A board, and how the key space is cut into its shards: a request is sent and served by one layout.
#[derive(Drop)]
pub struct Ground<S: Service> {
    pub board: Board<S>,
    pub layout: Layout,
}

impl<S: Service> Ground<S> {
    /// Returns a new pass of the server, which has seen everything that the note had seen.
    pub fn pass_told(&self, server: ServerId, note: Note<S>) -> Pass<S>
        requires { note.board ≡ self.now.board }
        ensures { IsNewPass self.now.board server note.seen result }
    {
        let mut pass = self.board.pass(Some(server));
        self.board.meet(&mut pass, note);
        pass
    }
}
