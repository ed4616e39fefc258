ghost use Rattle.std.specs.Prelude.{◌≡◌, ◌<◌, ◌≤◌, None, IfErr, IfNone, IfOk, IfSome, is_none};
ghost use Rattle.std.specs.Arc.{arc_value};
ghost use Rattle.sm_ownership.specs.declared.record.TheConstants.{MAX_GENERATION};
ghost use Rattle.sm_rule.specs.Admissions.{RefusedBy};
ghost use Rattle.sm_rule.specs.Passes.{PassLooks, record_of};
ghost use Rattle.sm_rule.specs.Views.{Begins, IsMet};
ghost use Rattle.sm_rule.specs.Words.{IsWordOf};
ghost use Rattle.sm_foreign.specs.Holding.{AdmitsPass, EndsPass, HasNotActed, generation_held};

use crate::foreign::Foreign;
use sm_body::service::Service;
use sm_ownership::mode::Mode;
use sm_ranges::server_id::ServerId;
use sm_ranges::shard_id::ShardId;
use sm_rule::{Board, Front, Pass, Permit, ToldRefusal};
use std::alloc::AllocError;
use std::marker::Model;
use std::sync::Arc;

/// A pass with the permit that it holds, if any, whose body is unchanged, and its board. Contracts see the pass and the
/// permit.
pub struct BoardPass<S: Service> {
    board: Arc<Board<S>>,
    pass: Pass<S>,
    permit: Option<Permit<S>>,
}

impl<S: Service> Model for BoardPass<S> {
    ghost use Rattle.std.specs.Prelude.{◌≡◌, Option};
    ghost use Rattle.std.specs.Arc.{arc_value};
    ghost use Rattle.sm_rule.specs.Admissions.{PermitValue};
    ghost use Rattle.sm_rule.specs.Bodies.{Keeps};
    ghost use Rattle.sm_rule.specs.Passes.{PassValue};
    ghost use Rattle.sm_foreign.specs.Holding.{IsPermitOf};

    ghost Value = { PassValue S.Request × Option (PermitValue S) };

    ghost view = { λ it. (it.pass, it.permit) };

    ghost invariant = { λ it. (it.pass.board ≡ arc_value it.board)
        × IsPermitOf (Keeps S.initial S.next S.base S.before S.requests) S.limit it.pass.board it.pass.held it.permit };
}

impl BoardPass<Foreign> {
    /// Returns a new pass on the board, admitted as this server, or never.
    pub fn new(board: Arc<Board<Foreign>>, server: Option<ServerId>) -> BoardPass<Foreign>
        ensures board { result.0.board ≡ arc_value board }
        ensures server { result.0.server ≡ server }
        ensures new { HasNotActed result.0 }
        ensures free { result.1 ≡ None }
    {
        let pass = board.pass(server);
        BoardPass {
            board,
            pass,
            permit: None,
        }
    }

    /// Returns the number of the board's shards.
    pub fn count(&self) -> u32
        ensures { result ≡ self.now.0.board.limits.count }
    {
        self.board.count()
    }

    /// Returns whether the pass holds no permit.
    pub fn is_free(&self) -> bool
        ensures { result ≡ is_none self.now.1 }
    {
        self.permit.is_none()
    }

    /// Returns the generation of the shard that the pass holds, since the admission, if it holds one.
    pub fn generation(&self) -> Option<u64>
        ensures generation { result ≡ generation_held self.now.0 }
        ensures counted { IfSome result (λ generation. 0 < generation) }
        ensures low { IfSome result (λ generation. generation ≤ MAX_GENERATION) }
        ensures free { IfNone result (self.now.1 ≡ None) }
    {
        match &self.permit {
            Some(permit) => Some(permit.generation()),
            None => None,
        }
    }

    /// Returns the word of the shard's record after all that the pass then has seen.
    pub fn look_word(&mut self, k: ShardId) -> u64
        requires { k < self.old.0.board.limits.count }
        ensures seen { PassLooks self.old.0 self.new.0 }
        ensures permit { self.new.1 ≡ self.old.1 }
        ensures word { IsWordOf (record_of self.new.0 k) result }
    {
        self.board.look_word(&mut self.pass, k)
    }

    /// Returns a new pass with the same server, which has seen everything that this one has seen. It fails only if
    /// memory is refused.
    pub fn split(&mut self) -> Result<BoardPass<Foreign>, AllocError>
        ensures unchanged { self.new ≡ self.old }
        ensures board { IfOk result (λ pass. pass.0.board ≡ self.old.0.board) }
        ensures server { IfOk result (λ pass. pass.0.server ≡ self.old.0.server) }
        ensures seen { IfOk result (λ pass. Begins self.old.0.seen pass.0.seen) }
        ensures free { IfOk result (λ pass. pass.1 ≡ None) }
    {
        let board = Arc::try_clone(&self.board)?;
        let pass = self.board.split(&mut self.pass);
        Ok(BoardPass {
            board,
            pass,
            permit: None,
        })
    }

    /// Tells the pass everything that another one of its board had seen. The other one must hold nothing, and acts no
    /// more. It can't be refused.
    pub fn meet(&mut self, other: BoardPass<Foreign>)
        requires board { other.0.board ≡ self.old.0.board }
        requires free { other.1 ≡ None }
        ensures looks { PassLooks self.old.0 self.new.0 }
        ensures permit { self.new.1 ≡ self.old.1 }
        ensures met { IsMet other.0.number other.0.seen self.new.0.seen }
    {
        let BoardPass {
            board: _,
            mut pass,
            permit,
        } = other;
        match permit {
            None => self.board.meet(&mut self.pass, pass.into_note()),
            Some(permit) => {
                let _ = self.board.finish(&mut pass, permit);
                unreachable!()
            }
        }
    }

    /// Admits the pass, which must hold nothing, to the shard for a request that came in this mode. Returns the number
    /// of the shard's body; or why it isn't admitted, and then the pass has looked.
    #[inline(always)]
    pub fn admit(&mut self, k: ShardId, mode: Mode) -> Result<u64, ToldRefusal>
        requires shard { k < self.old.0.board.limits.count }
        requires free { self.old.1 ≡ None }
        ensures admitted { IfOk result (AdmitsPass self.old self.new k mode) }
        ensures refused { IfErr result
            (λ refusal. PassLooks self.old.0 self.new.0 × RefusedBy self.old.0 self.new.0 k mode refusal) }
        ensures unheld { IfErr result (λ refusal. self.new.1 ≡ self.old.1) }
    {
        let mut permit = match self.board.enter(&mut self.pass, k, mode) {
            Ok(permit) => permit,
            Err(refusal) => return Err(refusal),
        };
        let number = permit.body().number;
        match self.permit.replace(permit) {
            None => Ok(number),
            Some(_earlier) => unreachable!(),
        }
    }

    /// Ends the admission, which has changed nothing that the board knows of. Returns nothing if the pass holds
    /// nothing.
    pub fn finish(&mut self) -> Option<Front>
        ensures ended { IfSome result (EndsPass self.old self.new) }
        ensures free { IfNone result (self.old.1 ≡ None) }
        ensures none { IfNone result (self.new ≡ self.old) }
    {
        match self.permit.take() {
            Some(permit) => Some(self.board.finish(&mut self.pass, permit)),
            None => None,
        }
    }

    // Ends the admission, if there is one, for good.
    pub(crate) fn end(self) {
        let BoardPass {
            board,
            mut pass,
            permit,
        } = self;
        match permit {
            Some(permit) => {
                let _ = board.finish(&mut pass, permit);
            }
            None => {}
        }
    }
}
