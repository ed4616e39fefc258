//! The channel on which one call is answered, under a rule that knows the call.
ghost use Rattle.std.specs.Prelude.{◌≡◌, ⊤, Option, Some, None, IfOk};
ghost use Rattle.crossbeam_channel.specs.Claims as claims;
ghost use Rattle.crossbeam_channel.specs.Claims.{IsSeatAt};
ghost use Rattle.crossbeam_channel.specs.Ends.{receives_on, sends_on};
ghost use Rattle.sm_body.specs.Service.{meaning_of};
ghost use Rattle.sm_calls.specs.Replies.{CallValue, Fits, HoldsReplies};

use crate::call_refused::CallFault;
use crossbeam_channel::protocol::{Lesson, Outcome, Protocol, Split};
use crossbeam_channel::{Pass, RecvError, RuledReceiver, RuledSender, TryRecvError, bounded_with};
use sm_body::service::Service;
use sm_envelope::envelope::Envelope;
use sm_inbox::{LOOKS, pause};
use sm_ranges::layout::Layout;
use sm_ranges::server_id::ServerId;
use sm_rule::note::Note;
use sm_server::Answer;
use std::alloc::{AllocError, Global};
use std::marker::{Brand, Model, PhantomData};
use std::sync::Wait;

/// The reply to a client's call: the answer, or why its envelope comes back.
#[derive(Drop)]
pub(crate) enum CallReply<A: Drop, E: Drop> {
    Answered(A),
    Refused(CallFault, E),
}

pub(crate) type ReplyOf<S, Q> = CallReply<Answer<S>, Envelope<Q, Note<S>>>;

/// A reply on its channel. Contracts see only the reply.
///
/// It names only the service type. A channel uses its element's type in many of its own types, and the type of
/// `ReplyOf` is made from more types than the borrow checker handles if the service is an instance of a generic type.
#[derive(Drop)]
struct CrossingReply<S: Service> {
    reply: ReplyOf<S, S::Request>,
}

impl<S: Service> Model for CrossingReply<S> {
    ghost use Rattle.sm_server.specs.Answers.{AnswerValue};
    ghost use Rattle.sm_server.specs.Serving.{Sent};
    ghost use Rattle.sm_calls.specs.declared.reply.CallReply.{CallReply};

    ghost Value = { CallReply (AnswerValue S.Request S.Reply) (Sent S.Request) };

    ghost view = { λ crossing. crossing.reply };
}

impl<S: Service> CrossingReply<S> {
    fn into_reply(self) -> ReplyOf<S, S::Request>
        ensures { result ≡ self }
    {
        self.reply
    }
}

/// The knowledge of a pass of a reply's channel: the call, once it was sent. No value of this type is made.
pub(crate) struct Asked<Q> {
    request: PhantomData<Q>,
}

impl<Q> Model for Asked<Q> {
    ghost Value = { Option (CallValue Q) };

    ghost view = { λ _. None };
}

/// The rule of a reply's channel: it contains replies to the one call that all its passes know.
pub(crate) struct ReplyRule<S> {
    service: PhantomData<S>,
}

impl<S: Service> Protocol<CrossingReply<S>, Asked<S::Request>> for ReplyRule<S> {
    ghost holds = { HoldsReplies (meaning_of S.initial S.next S.answer S.key_of) };

    ghost first = { None };
}

/// The call that a channel is made for. Each call picks it.
pub(crate) trait Asking<Q> {
    ghost asked: { Option (CallValue Q) };
}

impl<Q> Asking<Q> for Brand {
    ghost asked = { None };
}

/// The first pass learns the call, and is cut in two.
pub(crate) struct Learns<J> {
    asking: PhantomData<J>,
}

impl<Q, J: Asking<Q>> Split<Asked<Q>> for Learns<J> {
    ghost left = { λ known. J.asked };

    ghost right = { λ known. J.asked };
}

/// A reply is sent.
pub(crate) struct SendsReply;

impl<T, V> Outcome<T, V> for SendsReply {
    ghost then = { λ known reply after. after ≡ known };
}

impl<T, V> Lesson<T, V> for SendsReply {
    ghost fact = { λ known replies. ⊤ };
}

/// A reply is received.
pub(crate) struct ReceivesReply<S> {
    service: PhantomData<S>,
}

impl<S: Service> Outcome<CrossingReply<S>, Asked<S::Request>> for ReceivesReply<S> {
    ghost then = { λ known reply after. Fits (meaning_of S.initial S.next S.answer S.key_of) known reply };
}

impl<S: Service> Lesson<CrossingReply<S>, Asked<S::Request>> for ReceivesReply<S> {
    ghost fact = { λ known replies. ⊤ };
}

/// The end on which the reply to one call is sent. Contracts see the call as it was first sent.
#[derive(Drop)]
pub(crate) struct ReplySender<S: Service> {
    sender: RuledSender<CrossingReply<S>, Asked<S::Request>, ReplyRule<S>>,
    pass: Pass<CrossingReply<S>, Asked<S::Request>>,
}

impl<S: Service> Model for ReplySender<S> {
    ghost Value = { Option (CallValue S.Request) };

    ghost view = { λ end. claims.view end.pass };

    ghost invariant = { λ end. IsSeatAt (sends_on end.sender) end.pass };
}

/// The end on which the reply to one call is received.
#[derive(Drop)]
pub(crate) struct ReplyReceiver<S: Service> {
    receiver: RuledReceiver<CrossingReply<S>, Asked<S::Request>, ReplyRule<S>>,
    pass: Pass<CrossingReply<S>, Asked<S::Request>>,
}

impl<S: Service> Model for ReplyReceiver<S> {
    ghost Value = { Option (CallValue S.Request) };

    ghost view = { λ end. claims.view end.pass };

    ghost invariant = { λ end. IsSeatAt (receives_on end.receiver) end.pass };
}

impl<S: Service> ReplySender<S> {
    /// Sends the reply. If the caller is gone, the reply is lost.
    pub(crate) fn send<R: Wait>(self, rt: &R, reply: ReplyOf<S, S::Request>)
        requires { Fits (meaning_of S.initial S.next S.answer S.key_of) self reply }
    {
        let ReplySender { sender, mut pass } = self;
        let _ = sender.send_as::<SendsReply, R>(rt, &mut pass, CrossingReply { reply });
    }
}

impl<S: Service> ReplyReceiver<S> {
    /// Waits for the reply, for which it looks some times before it sleeps, or for the sender to be gone.
    pub(crate) fn receive<R: Wait>(self, rt: &R) -> Result<ReplyOf<S, S::Request>, RecvError>
        ensures { IfOk result (λ reply. Fits (meaning_of S.initial S.next S.answer S.key_of) self reply) }
    {
        match self.receive_crossing(rt) {
            Ok(crossing) => Ok(crossing.into_reply()),
            Err(fault) => Err(fault),
        }
    }

    // `receive`, of the reply as it crosses.
    fn receive_crossing<R: Wait>(self, rt: &R) -> Result<CrossingReply<S>, RecvError>
        ensures { IfOk result (λ reply. Fits (meaning_of S.initial S.next S.answer S.key_of) self reply) }
    {
        let ReplyReceiver { receiver, mut pass } = self;
        for look in 0..LOOKS {
            match receiver.try_recv_as::<ReceivesReply<S>, R>(rt, &mut pass) {
                Ok(reply) => return Ok(reply),
                Err(TryRecvError::Disconnected) => return Err(RecvError),
                Err(TryRecvError::Empty) => pause(look),
            }
        }
        receiver.recv_as::<ReceivesReply<S>, R>(rt, &mut pass)
    }
}

// Returns the two ends of a channel whose passes know the call in `J`.
fn channel_as<S: Service, J: Asking<S::Request>>(
    alloc: Global,
    _layout: &Layout,
    _server: ServerId,
    _envelope: &Envelope<S::Request, Note<S>>,
) -> Result<(ReplySender<S>, ReplyReceiver<S>), AllocError>
    requires { J.asked ≡ Some (record { bounds = _layout.now; server = _server; sent = _envelope.now }) }
    ensures sender { IfOk result (λ ends. ends.0
        ≡ Some (record { bounds = _layout.now; server = _server; sent = _envelope.now })) }
    ensures receiver { IfOk result (λ ends. ends.1
        ≡ Some (record { bounds = _layout.now; server = _server; sent = _envelope.now })) }
{
    let (sender, receiver, mut pass) = bounded_with::<
        CrossingReply<S>,
        Asked<S::Request>,
        ReplyRule<S>,
        Global,
    >(alloc, 1)?;
    let other = sender.another::<Learns<J>>(&mut pass);
    Ok((
        ReplySender {
            sender,
            pass: other,
        },
        ReplyReceiver { receiver, pass },
    ))
}

/// Returns the two ends of a new channel for the reply to the call of this envelope at the server, which is served by
/// this layout.
pub(crate) fn reply_channel<S: Service>(
    alloc: Global,
    layout: &Layout,
    server: ServerId,
    envelope: &Envelope<S::Request, Note<S>>,
) -> Result<(ReplySender<S>, ReplyReceiver<S>), AllocError>
    ensures sender { IfOk result (λ ends. ends.0
        ≡ Some (record { bounds = layout.now; server = server; sent = envelope.now })) }
    ensures receiver { IfOk result (λ ends. ends.1
        ≡ Some (record { bounds = layout.now; server = server; sent = envelope.now })) }
{
    channel_as::<S, Brand>(alloc, layout, server, envelope)
}
