//! A pass that serves envelopes.
ghost use Rattle.std.specs.Prelude.{◌≡◌, ◌<◌, IfErr, IfOk, IsSome, OnOk};
ghost use Rattle.sm_body.specs.Service.{meaning_of};
ghost use Rattle.sm_rule.specs.Passes.{PassLooks, record_of};
ghost use Rattle.sm_rule.specs.Views.{Begins, IsMet};
ghost use Rattle.sm_server.specs.Basing.{CheckpointRefused, HasMadeCheckpoint};
ghost use Rattle.sm_server.specs.Serving.{Served, is_here};

use crate::free_pass::FreePass;
use sm_body::service::Service;
use sm_envelope::envelope::Envelope;
use sm_ranges::layout::Layout;
use sm_ranges::server_id::ServerId;
use sm_ranges::shard_id::ShardId;
use sm_rule::Front;
use sm_rule::note::Note;
use sm_server::{Answer, CheckpointFault, Outcome, checkpoint, serve};

impl<S: Service> FreePass<S> {
    /// Returns the server that the pass acts as, if any.
    pub fn server(&self) -> Option<ServerId>
        ensures { result ≡ self.now.server }
    {
        self.pass.server()
    }

    /// Returns a note of all that the pass has seen.
    pub fn note(&mut self) -> Note<S>
        ensures unchanged { self.new ≡ self.old }
        ensures board { result.board ≡ self.old.board }
        ensures seen { Begins self.old.seen result.seen }
    {
        self.board.split(&mut self.pass).into_note()
    }

    /// Makes the pass meet a note of its board. It can't be refused.
    pub fn hear(&mut self, note: Note<S>)
        requires { note.board ≡ self.old.board }
        ensures looks { PassLooks self.old self.new }
        ensures met { IsMet note.number note.seen self.new.seen }
    {
        self.board.meet(&mut self.pass, note);
    }

    /// Serves an envelope as the pass's server. Returns the answer, if the server executed the request; the envelope
    /// with one hop more, and the next server; or the envelope with the first reason for which it is refused.
    pub fn serve(
        &mut self,
        layout: &Layout,
        envelope: Envelope<S::Request, Note<S>>,
    ) -> Outcome<Answer<S>, Envelope<S::Request, Note<S>>>
        requires note { envelope.note.board ≡ self.old.board }
        requires server { IsSome self.old.server }
        ensures seen { PassLooks self.old self.new }
        ensures served { Served (meaning_of S.initial S.next S.answer S.key_of)
            (is_here (meaning_of S.initial S.next S.answer S.key_of) layout.now self.old.board.limits.count envelope)
            self.old envelope result }
    {
        serve(&self.board, layout, &mut self.pass, envelope)
    }

    /// Makes the shard's present state its base, so that the shard keeps no request; or says why not.
    pub fn checkpoint(&mut self, k: ShardId) -> Result<Front, CheckpointFault>
        requires { k < self.old.board.limits.count }
        ensures made { OnOk result (HasMadeCheckpoint self.old k self.new) }
        ensures refused { IfErr result (λ fault. CheckpointRefused self.old k self.new fault) }
        ensures shard { IfOk result (λ front. front.shard ≡ k) }
        ensures generation { IfOk result (λ front. front.generation ≡ (record_of self.new k).generation) }
    {
        checkpoint(&self.board, &mut self.pass, k)
    }
}
