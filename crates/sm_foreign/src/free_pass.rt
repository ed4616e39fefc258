ghost use Rattle.std.specs.Prelude.{◌≡◌, ◌<◌, IfOk};
ghost use Rattle.std.specs.Arc.{arc_value};
ghost use Rattle.sm_rule.specs.Passes.{PassLooks, record_of};
ghost use Rattle.sm_rule.specs.Views.{Begins, IsMet};
ghost use Rattle.sm_rule.specs.Words.{IsWordOf};
ghost use Rattle.sm_foreign.specs.Holding.{HasNotActed};

use sm_body::service::Service;
use sm_ranges::server_id::ServerId;
use sm_ranges::shard_id::ShardId;
use sm_rule::{Board, Pass};
use std::alloc::AllocError;
use std::marker::Model;
use std::sync::Arc;

/// A pass that holds nothing, and its board. Contracts see the pass.
#[derive(Drop)]
pub struct FreePass<S: Service> {
    pub(crate) board: Arc<Board<S>>,
    pub(crate) pass: Pass<S>,
}

impl<S: Service> Model for FreePass<S> {
    ghost use Rattle.std.specs.Prelude.{◌≡◌, None};
    ghost use Rattle.std.specs.Arc.{arc_value};
    ghost use Rattle.sm_rule.specs.Passes.{PassValue};

    ghost Value = { PassValue S.Request };

    ghost view = { λ free. free.pass };

    ghost invariant = { λ free. (free.pass.board ≡ arc_value free.board) × (free.pass.held ≡ None) };
}

impl<S: Service> FreePass<S> {
    /// Returns a new pass on the board, admitted as this server, or never.
    pub fn new(board: Arc<Board<S>>, server: Option<ServerId>) -> FreePass<S>
        ensures board { result.board ≡ arc_value board }
        ensures server { result.server ≡ server }
        ensures new { HasNotActed result }
    {
        let pass = board.pass(server);
        FreePass { board, pass }
    }

    /// Returns the number of the board's shards.
    pub fn count(&self) -> u32
        ensures { result ≡ self.now.board.limits.count }
    {
        self.board.count()
    }

    /// Returns the word of the shard's record after all that the pass then has seen.
    pub fn look_word(&mut self, k: ShardId) -> u64
        requires { k < self.old.board.limits.count }
        ensures seen { PassLooks self.old self.new }
        ensures word { IsWordOf (record_of self.new k) result }
    {
        self.board.look_word(&mut self.pass, k)
    }

    /// Returns a new pass with the same server, which has seen everything that this one has seen. It fails only if
    /// memory is refused.
    pub fn split(&mut self) -> Result<FreePass<S>, AllocError>
        ensures unchanged { self.new ≡ self.old }
        ensures board { IfOk result (λ free. free.board ≡ self.old.board) }
        ensures server { IfOk result (λ free. free.server ≡ self.old.server) }
        ensures seen { IfOk result (λ free. Begins self.old.seen free.seen) }
    {
        let board = Arc::try_clone(&self.board)?;
        let pass = self.board.split(&mut self.pass);
        Ok(FreePass { board, pass })
    }

    /// Tells the pass everything that another one of its board had seen. The other one acts no more. It can't be
    /// refused.
    pub fn meet(&mut self, other: FreePass<S>)
        requires { other.board ≡ self.old.board }
        ensures looks { PassLooks self.old self.new }
        ensures met { IsMet other.number other.seen self.new.seen }
    {
        let FreePass { board: _, pass } = other;
        self.board.meet(&mut self.pass, pass.into_note());
    }
}
