ghost use Rattle.std.specs.Prelude.{◌≡◌};
ghost use Rattle.sm_body.specs.Service.{meaning_of};
ghost use Rattle.sm_server.specs.Answers.{IsSomeAnswer};

use sm_body::service::Service;
use sm_ranges::server_id::ServerId;
use sm_rule::note::Note;
use std::marker::Model;

/// The reply to a request, its place among all requests of its shard, and a note of the history that has both. By its
/// type nobody can make up an answer: the note's own entries are one admission and the end with the request.
#[derive(Drop)]
pub struct Answer<S: Service> {
    pub(crate) number: u64,
    pub(crate) server: ServerId,
    pub(crate) reply: S::Reply,
    pub(crate) place: u64,
    pub(crate) note: Note<S>,
}

impl<S: Service> Model for Answer<S> {
    ghost use Rattle.sm_body.specs.Service.{meaning_of};
    ghost use Rattle.sm_server.specs.Answers.{AnswerValue, IsSomeAnswer};

    ghost Value = { AnswerValue S.Request S.Reply };

    ghost view = { λ answer. record {
      number = answer.number;
      server = answer.server;
      reply = answer.reply;
      place = answer.place;
      note = answer.note;
    } };

    ghost invariant = { λ answer. IsSomeAnswer (meaning_of S.initial S.next S.answer S.key_of)
        (record {
          number = answer.number;
          server = answer.server;
          reply = answer.reply;
          place = answer.place;
          note = answer.note;
        }) };
}

impl<S: Service> Answer<S> {
    /// Returns the number of the envelope.
    pub fn number(&self) -> u64
        ensures { result ≡ self.now.number }
    {
        self.number
    }

    /// Returns the server that executed the request.
    pub fn server(&self) -> ServerId
        ensures { result ≡ self.now.server }
    {
        self.server
    }

    /// Returns the reply.
    pub fn reply(&self) -> &S::Reply
        ensures { result.now ≡ self.now.reply }
    {
        &self.reply
    }

    /// Returns how many requests of the shard were executed before this one.
    pub fn place(&self) -> u64
        ensures { result ≡ self.now.place }
    {
        self.place
    }

    /// Returns the reply, and the note of the history that has it.
    pub fn parts(self) -> (S::Reply, Note<S>)
        ensures reply { result.0 ≡ self.reply }
        ensures note { result.1 ≡ self.note }
    {
        (self.reply, self.note)
    }

    /// Tells proofs that an answer is one to some request. It does nothing.
    pub fn soundness(&self)
        ensures { IsSomeAnswer (meaning_of S.initial S.next S.answer S.key_of) self.now }
    {
        // This opens the value, whose invariant the proof cites.
        let _ = &self.place;
    }
}
