ghost use Rattle.std.specs.Prelude.{◌≡◌, ◌<◌, None, Some, IfErr, IfOk, length};
ghost use Rattle.std.specs.Arc.{arc_value};
ghost use Rattle.sm_body.specs.Service.{meaning_of};
ghost use Rattle.sm_ranges.specs.Ranges.{shard_of};
ghost use Rattle.sm_calls.specs.Calls.{Called, CalledAt, HasHeard, HasLooked, HasReadRoute};
ghost use Rattle.sm_calls.specs.Exchanging.{IsCallOf, IsLeftAfter, IsLeftBy, SendsBackOn, call_outcome};
ghost use Rattle.sm_calls.specs.Replies.{Fits};
ghost use Rattle.sm_calls.specs.Since.{IsClientSince};

use crate::call_refused::{CallFault, CallRefused};
use crate::ground::Ground;
use crate::message::Message;
use crate::network::Network;
use crate::reply::{CallReply, ReplyOf, ReplyReceiver, reply_channel};
use crate::told::Told;
use crossbeam_channel::RecvError;
use sm_body::service::Service;
use sm_envelope::envelope::Envelope;
use sm_ownership::record::Record;
use sm_ownership::route::Route;
use sm_publish::Router;
use sm_ranges::server_id::ServerId;
use sm_ranges::shard_id::ShardId;
use sm_rule::note::Note;
use sm_rule::pass::Pass;
use sm_server::Answer;
use std::alloc::Global;
use std::marker::Model;
use std::sync::{Arc, Wait};

/// A client of a cluster. It may move to any thread, and may be dropped.
///
/// Contracts see its pass, its router, and the bounds of the shards.
#[derive(Drop)]
pub struct Client<S: Service> {
    ground: Arc<Ground<S>>,
    network: Arc<Network<Message<S>>>,
    pass: Pass<S>,
    router: Router,
}

impl<S: Service> Model for Client<S> {
    ghost use Rattle.std.specs.Prelude.{◌≡◌, None};
    ghost use Rattle.std.specs.Arc.{arc_value};
    ghost use Rattle.sm_calls.specs.Calls.{ClientValue};

    ghost Value = { ClientValue S.Request };

    ghost view = { λ client. record {
      pass = client.pass;
      router = client.router;
      bounds = (arc_value client.ground).layout;
    } };

    ghost invariant = { λ client. (client.pass.board ≡ (arc_value client.ground).board) × (client.pass.held ≡ None) };
}

impl<S: Service> Client<S> {
    /// Makes a client that has seen the board's history up to some moment, and no route.
    pub fn new(
        ground: Arc<Ground<S>>,
        network: Arc<Network<Message<S>>>,
        router: Router,
    ) -> Client<S>
        ensures board { result.pass.board ≡ (arc_value ground).board }
        ensures router { result.router ≡ router }
        ensures bounds { result.bounds ≡ (arc_value ground).layout }
    {
        let pass = ground.board.pass(None);
        Client {
            ground,
            network,
            pass,
            router,
        }
    }

    /// Sends the request to the server in the route that the client's router has for the key. That server answers it,
    /// or one to which it is forwarded. The answer's history extends everything that the client had seen. A request
    /// that was not answered comes back, except after `Closed`. `NoRoute` comes only if the router has no route.
    /// `Refused` comes only if a step of such a server on an envelope of this call gave that reason; the client then
    /// has seen the record by which the server refused.
    pub fn call<R: Wait>(
        &mut self,
        rt: &R,
        alloc: Global,
        number: u64,
        request: S::Request,
    ) -> Result<Answer<S>, CallRefused<S::Request>>
        ensures called { Called
            (meaning_of S.initial S.next S.answer S.key_of) self.old number request result self.new }
        ensures since { IsClientSince self.old self.new }
    {
        let k = self.shard_of(&request);
        let Some(route) = self.shard_route(k) else {
            return Err(CallRefused {
                fault: CallFault::NoRoute,
                back: Some(request),
            });
        };
        self.call_shard_at(rt, alloc, route.server, number, k, request)
    }

    /// Sends the request to this server, which answers it, or forwards it to a server that does. The answer's history
    /// extends everything that the client had seen. A request that was not answered comes back, except after `Closed`.
    /// `NoRoute` never comes. `Refused` comes only if a step of such a server on an envelope of this call gave that
    /// reason; the client then has seen the record by which the server refused.
    pub fn call_at<R: Wait>(
        &mut self,
        rt: &R,
        alloc: Global,
        server: ServerId,
        number: u64,
        request: S::Request,
    ) -> Result<Answer<S>, CallRefused<S::Request>>
        ensures called { CalledAt
            (meaning_of S.initial S.next S.answer S.key_of) self.old server number request result self.new }
        ensures since { IsClientSince self.old self.new }
    {
        let k = self.shard_of(&request);
        self.call_shard_at(rt, alloc, server, number, k, request)
    }

    /// Returns the shard whose range covers the request's key.
    pub fn shard_of(&self, request: &S::Request) -> ShardId
        ensures within { result < length self.now.bounds }
        ensures value { result ≡ shard_of self.now.bounds (S.key_of request.now) }
    {
        self.ground.layout.shard_of(S::key(request))
    }

    /// Does the same as `call_at`, if the caller has found the shard of the request's key.
    pub fn call_shard_at<R: Wait>(
        &mut self,
        rt: &R,
        alloc: Global,
        server: ServerId,
        number: u64,
        k: ShardId,
        request: S::Request,
    ) -> Result<Answer<S>, CallRefused<S::Request>>
        requires within { k < length self.old.bounds }
        requires shard { k ≡ shard_of self.old.bounds (S.key_of request) }
        ensures called { CalledAt
            (meaning_of S.initial S.next S.answer S.key_of) self.old server number request result self.new }
        ensures since { IsClientSince self.old self.new }
    {
        match self.message(alloc, server, number, k, request) {
            Ok((message, receiver)) => {
                let reply = exchange(rt, &*self.network, message, receiver);
                self.taken(reply)
            }
            Err(request) => Err(CallRefused {
                fault: CallFault::NoMemory,
                back: Some(request),
            }),
        }
    }

    // Returns the message of a new call at the server for the key's shard, and the receiver of its reply. If memory is
    // refused, the request comes back.
    fn message(
        &mut self,
        alloc: Global,
        server: ServerId,
        number: u64,
        k: ShardId,
        request: S::Request,
    ) -> Result<(Message<S>, ReplyReceiver<S>), S::Request>
        requires within { k < length self.old.bounds }
        requires shard { k ≡ shard_of self.old.bounds (S.key_of request) }
        ensures message { IfOk result
            (λ made. IsCallOf (meaning_of S.initial S.next S.answer S.key_of) self.old server number request
            made.0) }
        ensures receiver { IfOk result (λ made. made.1 ≡ Some made.0) }
        ensures back { IfErr result (λ back. back ≡ request) }
        ensures unchanged { self.new ≡ self.old }
    {
        let Ok(ground) = Arc::try_clone(&self.ground) else {
            return Err(request);
        };
        let note = ground.board.note(&mut self.pass);
        let envelope = Envelope::new(number, k, request, note);
        match reply_channel::<S>(alloc, &ground.layout, server, &envelope) {
            Ok((sender, receiver)) => {
                Ok((Message::new(ground, server, envelope, sender), receiver))
            }
            Err(_) => Err(request_of(envelope)),
        }
    }

    // Returns the client's result from the reply to its call. If the message was dropped, there is no reply.
    fn taken(
        &mut self,
        reply: Result<ReplyOf<S, S::Request>, RecvError>,
    ) -> Result<Answer<S>, CallRefused<S::Request>>
        requires { IfOk reply (SendsBackOn self.old.pass.board) }
        ensures answer { result ≡ call_outcome reply }
        ensures client { IsLeftAfter self.old reply self.new }
    {
        match reply {
            Ok(CallReply::Answered(answer)) => Ok(answer),
            Ok(CallReply::Refused(fault, envelope)) => {
                let request = self.taken_back(&fault, envelope);
                Err(CallRefused {
                    fault,
                    back: Some(request),
                })
            }
            Err(_) => Err(CallRefused {
                fault: CallFault::Closed,
                back: None,
            }),
        }
    }

    // Returns the request of an envelope that came back. If a server refused it, the client meets its note.
    fn taken_back(
        &mut self,
        fault: &CallFault,
        envelope: Envelope<S::Request, Note<S>>,
    ) -> S::Request
        requires { envelope.note.board ≡ self.old.pass.board }
        ensures request { result ≡ envelope.request }
        ensures client { IsLeftBy self.old fault.now envelope.note self.new }
    {
        let (request, note, _) = envelope.parts();
        match fault {
            CallFault::Refused(_) => {
                self.hear(note);
                request
            }
            CallFault::NoRoute => request,
            CallFault::Unreachable => request,
            CallFault::NoMemory => request,
            CallFault::Closed => request,
        }
    }

    /// Returns the shard's record after all that the client then has seen.
    pub fn look(&mut self, k: ShardId) -> Record
        requires { k < self.old.pass.board.limits.count }
        ensures { HasLooked self.old k result self.new }
    {
        self.ground.board.look(&mut self.pass, k)
    }

    /// Returns the latest published route of the key's shard among those that the client's router has then seen.
    /// Returns nothing if it has seen none, or if the read is refused.
    pub fn route(&mut self, key: &[u8]) -> Option<Route>
        ensures { HasReadRoute self.old (shard_of self.old.bounds key.now) result self.new }
    {
        self.router.route(&self.ground.layout, key)
    }

    // Does the same as `route`, if the caller has found the key's shard.
    fn shard_route(&mut self, k: ShardId) -> Option<Route>
        ensures { HasReadRoute self.old k result self.new }
    {
        self.router.shard_route(k)
    }

    /// Learns an answer: the client then has seen the history of the answer's note.
    pub fn learn(&mut self, answer: Answer<S>) -> Told<S::Reply>
        requires { answer.note.board ≡ self.old.pass.board }
        ensures told { result ≡ record {
          number = answer.number;
          server = answer.server;
          reply = answer.reply;
          place = answer.place;
        } }
        ensures heard { HasHeard self.old answer.note self.new }
    {
        let number = answer.number();
        let server = answer.server();
        let place = answer.place();
        let (reply, note) = answer.parts();
        self.hear(note);
        Told {
            number,
            server,
            reply,
            place,
        }
    }

    /// Makes the client meet a note.
    pub fn hear(&mut self, note: Note<S>)
        requires { note.board ≡ self.old.pass.board }
        ensures { HasHeard self.old note self.new }
    {
        self.ground.board.meet(&mut self.pass, note);
    }

    /// Counts a request that is made anew, for `Cluster::counts`.
    pub fn count_retry(&self) {
        self.network.counters.count_retry();
    }

    /// Returns the client's pass, for instance when the cluster stops.
    pub fn into_pass(self) -> Pass<S>
        ensures pass { result ≡ self.pass }
        ensures free { result.held ≡ None }
    {
        self.pass
    }
}

// Sends the message of a new call to its server, and waits for the reply.
fn exchange<S: Service, R: Wait>(
    rt: &R,
    network: &Network<Message<S>>,
    message: Message<S>,
    receiver: ReplyReceiver<S>,
) -> Result<ReplyOf<S, S::Request>, RecvError>
    requires { receiver ≡ Some message }
    ensures { IfOk result (Fits (meaning_of S.initial S.next S.answer S.key_of) (Some message)) }
{
    match network.send(rt, message.server(), message) {
        Ok(()) => receiver.receive(rt),
        Err(unsent) => Ok(CallReply::Refused(
            CallFault::from(unsent.fault),
            unsent.message.into_envelope(),
        )),
    }
}

// The request of an envelope.
fn request_of<S: Service>(envelope: Envelope<S::Request, Note<S>>) -> S::Request
    ensures { result ≡ envelope.request }
{
    let (request, _, _) = envelope.parts();
    request
}
