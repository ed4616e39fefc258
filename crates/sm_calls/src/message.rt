//! The requests of calls on their way.
ghost use Rattle.std.specs.Prelude.{◌≡◌, Some};
ghost use Rattle.std.specs.Arc.{arc_value};
ghost use Rattle.sm_body.specs.Service.{meaning_of};
ghost use Rattle.sm_calls.specs.Replies.{CallValue, HasReached};
ghost use Rattle.sm_ownership.specs.declared.mode.Mode.TheVariants.{Direct};
ghost use Rattle.sm_calls.specs.Passes.{IsNewPass};
ghost use Rattle.sm_calls.specs.Telling.{IsNotedAgain, Tells};

use crate::call_refused::CallFault;
use crate::ground::Ground;
use crate::network::Network;
use crate::reply::{CallReply, ReplySender};
use sm_body::service::Service;
use sm_counts::tally::Tally;
use sm_envelope::envelope::Envelope;
use sm_inbox::SendFault;
use sm_ranges::server_id::ServerId;
use sm_rule::admit_refusal::AdmitRefusal;
use sm_rule::note::Note;
use sm_rule::pass::Pass;
use sm_server::{Answer, Outcome, Refusal, serve};
use std::marker::Model;
use std::sync::{Arc, Wait};

/// A request on its way, with its board and layout, and the sender of its reply. Contracts see the bounds by which it
/// is served, the server to which it goes, and its envelope. By its type the note is of the board, and the bounds and
/// the envelope are those of the call to which the reply goes. The server is the one that the caller named, or the one
/// to which the record had the envelope forwarded.
#[derive(Drop)]
pub struct Message<S: Service> {
    ground: Arc<Ground<S>>,
    to: ServerId,
    envelope: Envelope<S::Request, Note<S>>,
    sender: ReplySender<S>,
}

impl<S: Service> Model for Message<S> {
    ghost Value = { CallValue S.Request };

    ghost view = { λ message. record {
      bounds = (arc_value message.ground).layout;
      server = message.to;
      sent = message.envelope;
    } };

    ghost invariant = { λ message. (message.envelope.note.board ≡ (arc_value message.ground).board)
        × (asked : CallValue S.Request) × (message.sender ≡ Some asked)
        × (asked.bounds ≡ (arc_value message.ground).layout)
        × HasReached asked message.to message.envelope };
}

impl<S: Service> Message<S> {
    /// Returns the message of a new call at the server.
    pub(crate) fn new(
        ground: Arc<Ground<S>>,
        to: ServerId,
        envelope: Envelope<S::Request, Note<S>>,
        sender: ReplySender<S>,
    ) -> Message<S>
        requires board { envelope.note.board ≡ (arc_value ground).board }
        requires mode { envelope.mode ≡ Direct }
        requires hops { envelope.hops ≡ 0 }
        requires sender { sender ≡ Some (record {
          bounds = (arc_value ground).layout;
          server = to;
          sent = envelope;
        }) }
        ensures { result ≡ record { bounds = (arc_value ground).layout; server = to; sent = envelope } }
    {
        Message {
            ground,
            to,
            envelope,
            sender,
        }
    }

    /// Returns the server to which it goes.
    pub(crate) fn server(&self) -> ServerId
        ensures { result ≡ self.now.server }
    {
        self.to
    }

    /// Returns the number of the call.
    pub(crate) fn number(&self) -> u64
        ensures { result ≡ self.now.sent.number }
    {
        self.envelope.number()
    }

    /// Returns the envelope; the call is let go.
    pub(crate) fn into_envelope(self) -> Envelope<S::Request, Note<S>>
        ensures { result ≡ self.sent }
    {
        self.envelope
    }

    /// Sends the fault of the way back with the envelope.
    pub(crate) fn refuse<R: Wait>(self, rt: &R, fault: SendFault) {
        let Message {
            ground: _,
            to: _,
            envelope,
            sender,
        } = self;
        sender.send(rt, CallReply::Refused(CallFault::from(fault), envelope));
    }

    /// Makes its server serve it with a new pass, which the tally counts. Then sends the reply, or the message on to
    /// the server that it goes to next. If another actor was quicker between the server's look and its admission,
    /// nothing was done, and the message goes into the server's own inbox again.
    pub(crate) fn serve<R: Wait>(
        self,
        rt: &R,
        network: &Network<Message<S>>,
        tally: Option<&Tally>,
    ) {
        let Message {
            ground,
            to: server,
            envelope,
            sender,
        } = self;
        let outcome = serve_anew(&*ground, server, envelope);
        if let Some(tally) = tally {
            tally.count(&outcome);
        }
        match outcome {
            Outcome::Answered(answer) => sender.send(rt, CallReply::Answered(answer)),
            Outcome::Refused(refusal, envelope) => {
                if is_overtaken(&refusal) {
                    let message = Message {
                        ground,
                        to: server,
                        envelope,
                        sender,
                    };
                    message.forward(rt, network);
                } else {
                    sender.send(
                        rt,
                        CallReply::Refused(CallFault::Refused(refusal), envelope),
                    );
                }
            }
            Outcome::Forward(to, envelope) => {
                let message = Message {
                    ground,
                    to,
                    envelope,
                    sender,
                };
                message.forward(rt, network);
            }
        }
    }

    // Sends it on to its server, or the fault back.
    fn forward<R: Wait>(self, rt: &R, network: &Network<Message<S>>) {
        if let Err(unsent) = network.send(rt, self.to, self) {
            unsent.message.refuse(rt, unsent.fault);
        }
    }
}

// Whether another actor was quicker between the server's look and its admission.
fn is_overtaken(refusal: &Refusal) -> bool {
    matches!(refusal, Refusal::Admit(AdmitRefusal::Raced { .. }))
}

// Returns the server's result for an envelope, with a new pass that first meets the envelope's note. A refused envelope
// comes back with a note of everything by which it was refused.
fn serve_anew<S: Service>(
    ground: &Ground<S>,
    server: ServerId,
    envelope: Envelope<S::Request, Note<S>>,
) -> Outcome<Answer<S>, Envelope<S::Request, Note<S>>>
    requires { envelope.note.board ≡ ground.now.board }
    ensures { Tells (meaning_of S.initial S.next S.answer S.key_of)
        (record { bounds = ground.now.layout; server = server; sent = envelope }) result }
{
    let (mut pass, envelope) = pass_for(ground, server, envelope);
    serve(&ground.board, &ground.layout, &mut pass, envelope)
}

// Returns a new pass of the server, which has seen everything that the envelope's note had seen, and the envelope with
// a note of that.
fn pass_for<S: Service>(
    ground: &Ground<S>,
    server: ServerId,
    envelope: Envelope<S::Request, Note<S>>,
) -> (Pass<S>, Envelope<S::Request, Note<S>>)
    requires { envelope.note.board ≡ ground.now.board }
    ensures pass { IsNewPass ground.now.board server envelope.note.seen result.0 }
    ensures envelope { IsNotedAgain envelope result.1 }
{
    let (request, note, shell) = envelope.parts();
    let mut pass = ground.pass_told(server, note);
    let note = ground.board.note(&mut pass);
    (pass, shell.whole(request, note))
}
