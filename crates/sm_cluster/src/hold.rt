ghost use Rattle.std.specs.Prelude.{◌≡◌, ◌<◌, None, IfErr, IfOk};
ghost use Rattle.sm_ownership.specs.declared.mode.Mode.TheVariants.{Direct};
ghost use Rattle.sm_rule.specs.Admissions.{PassAdmitted};
ghost use Rattle.sm_rule.specs.Passes.{PassLooks};
ghost use Rattle.sm_rule.specs.Views.{Begins};
ghost use Rattle.sm_cluster.specs.Holding.{HasEnded, IsTurnedAway};

use sm_body::service::Service;
use sm_ownership::mode::Mode;
use sm_ranges::shard_id::ShardId;
use sm_rule::admit_refusal::AdmitRefusal;
use sm_rule::board::Board;
use sm_rule::note::Note;
use sm_rule::pass::Pass;
use sm_rule::permit::Permit;
use std::marker::Model;

/// An admission without a request. It must be ended: it can't be dropped. Contracts see its pass.
pub(crate) struct Hold<S: Service> {
    pass: Pass<S>,
    permit: Permit<S>,
}

impl<S: Service> Model for Hold<S> {
    ghost use Rattle.std.specs.Prelude.{◌≡◌};
    ghost use Rattle.sm_rule.specs.Admissions.{HoldsPermit};
    ghost use Rattle.sm_rule.specs.Boards.{limit_at};
    ghost use Rattle.sm_rule.specs.Bodies.{Keeps};
    ghost use Rattle.sm_rule.specs.Passes.{PassValue};
    ghost use Rattle.sm_rule.specs.Views.{all_held, first_held};

    ghost Value = { PassValue S.Request };

    ghost view = { λ hold. hold.pass };

    ghost invariant = { λ hold. HoldsPermit hold.pass hold.permit
        × (S.limit hold.permit.body ≡ limit_at hold.pass.board.limits hold.permit.shard)
        × Keeps S.initial S.next S.base S.before S.requests hold.permit.body (first_held hold.pass.held)
        (all_held hold.pass.held) };
}

impl<S: Service> Hold<S> {
    /// Admits the pass to the shard for a direct request, or returns why it can't. Tells another pass everything that
    /// this one then has seen.
    pub(crate) fn begin(
        board: &Board<S>,
        mut pass: Pass<S>,
        k: ShardId,
        teller: &mut Pass<S>,
    ) -> Result<Hold<S>, AdmitRefusal>
        requires board { pass.board ≡ board.now }
        requires shard { k < board.now.limits.count }
        requires free { pass.held ≡ None }
        requires teller { teller.old.board ≡ board.now }
        ensures held { IfOk result (λ hold. PassAdmitted pass k Direct hold × Begins hold.seen teller.new.seen) }
        ensures refused { IfErr result (λ refusal. IsTurnedAway pass k refusal teller.new.seen) }
        ensures looks { PassLooks teller.old teller.new }
    {
        match board.admit(&mut pass, k, Mode::Direct) {
            Ok(permit) => {
                let note = board.note(&mut pass);
                board.meet(teller, note);
                Ok(Hold { pass, permit })
            }
            Err(refusal) => {
                board.meet(teller, pass.into_note());
                Err(refusal)
            }
        }
    }

    /// Ends the admission without a request, and returns a note of everything that its pass then has seen.
    pub(crate) fn end(self, board: &Board<S>) -> Note<S>
        requires { self.board ≡ board.now }
        ensures { HasEnded self result }
    {
        let Hold { mut pass, permit } = self;
        board.finish(&mut pass, permit);
        pass.into_note()
    }
}
