ghost use Rattle.std.specs.Prelude.{◌≡◌, ◌<◌, ◌≤◌, ◌^◌, true, [], All, None, Ok, IfOk, OnOk, OnErr, length, map};
ghost use Rattle.std.specs.Prelude.{replicate, slice_index_or, vec_capacity, vec_len};
ghost use Rattle.std.specs.Result.{result_err};
ghost use Rattle.sm_body.specs.Service.{meaning_of};
ghost use Rattle.sm_ranges.specs.Ranges.{shard_of};
ghost use Rattle.sm_ranges.specs.declared.stand.Stand.TheVariants.{Vacant};
ghost use Rattle.sm_ownership.specs.History.{record_at, vacant};
ghost use Rattle.sm_ownership.specs.Rules.{admit_fault};
ghost use Rattle.sm_envelope.specs.Envelope.{forwarded};
ghost use Rattle.sm_desk.specs.Desk.{is_restart, stands_of};
ghost use Rattle.sm_table.specs.Bodies.{no_past};
ghost use Rattle.sm_table.specs.Standing.{StandsFor, GoesAs, setup_frame, with_admission};
ghost use Rattle.sm_table.specs.World.{Plain, after_hop, mark_of, may_go, empty_world};
ghost use Rattle.sm_desk.specs.declared.command.Command.TheVariants.{Change as ChangeOf};
ghost use Rattle.sm_table.specs.declared.step.Step.TheVariants.{Control as ControlOf, Look as LookAt, Send as SendOf};
ghost use Rattle.sm_table.specs.declared.step.Step.TheVariants.{Deliver as DeliverAt, Finish as FinishAt};
ghost use Rattle.sm_table.specs.declared.step.Step.TheVariants.{Lose as LoseAt, Hold as HoldAt, Free as FreeAt};
ghost use Rattle.sm_table.specs.declared.step.Step.TheVariants.{Checkpoint as CheckpointAt, Publish as PublishAt};
ghost use Rattle.sm_table.specs.declared.step.Step.TheVariants.{RouteOf as RouteOfKey};

use crate::bodies::Bodies;
use crate::hands::{Hands, InHand, Work};
use crate::step::Step;
use crate::world_answer::WorldAnswer;
use crate::world_fault::WorldFault;
use sm_body::service::{ApplyFault, Service};
use sm_desk::command::Command;
use sm_desk::desk::Desk;
use sm_envelope::envelope::Envelope;
use sm_envelope::refusal::Refusal;
use sm_ownership::admit_fault::AdmitFault;
use sm_ownership::change::Change;
use sm_ownership::mode::Mode;
use sm_ownership::record::Record;
use sm_ownership::route::Route;
use sm_ownership::table::Table;
use sm_ranges::layout::Layout;
use sm_ranges::server_id::ServerId;
use sm_ranges::shard_id::ShardId;
use std::alloc::{AllocError, Global};
use std::marker::Model;

/// The parts from which a world is made, beside the bodies of its shards.
#[derive(Drop)]
pub struct Setup {
    /// The layout, which says to which shard a key belongs.
    pub layout: Layout,
    /// The desk that checks commands: it must have a vacant shard for each range of the layout.
    pub desk: Desk,
    /// The greatest generation of a shard, 3 to 2^36 - 1.
    pub ceiling: u64,
}

/// An envelope in flight, and the server to which it goes.
#[derive(Drop)]
pub struct Flight<Q: Drop> {
    pub to: ServerId,
    pub envelope: Envelope<Q, ()>,
}

/// All shards and servers, the requests on their way, and the published map, as one thread runs them.
#[derive(Drop)]
pub struct World<S: Service> {
    layout: Layout,
    desk: Desk,
    table: Table,
    bodies: Bodies<S>,
    // By shard, the last route that was published.
    routes: Vec<Option<Route>>,
    in_flight: Vec<Flight<S::Request>>,
    in_hand: Hands<S::Request>,
}

impl<S: Service> Model for World<S> {
    ghost use Rattle.sm_table.specs.Standing.{IsTogether, WorldView, view_of};

    ghost Value = { WorldView S.Request };

    ghost view = { λ world.
        view_of world.layout world.desk world.table world.bodies world.routes.items world.in_flight.items
        world.in_hand };

    ghost invariant = { λ world. IsTogether
        (view_of world.layout world.desk world.table world.bodies world.routes.items world.in_flight.items
        world.in_hand) };
}

impl<S: Service> World<S> {
    /// Returns a world in which nothing has happened: no shard has an owner, and nothing is in flight. It must be given
    /// a body for each shard of the layout, in the initial state, and none may have applied a request yet.
    pub fn new(alloc: Global, setup: Setup, bodies: Vec<S>) -> Result<World<S>, AllocError>
        requires vacant { stands_of setup.desk ≡ replicate (length setup.layout) Vacant }
        requires bodies { vec_len bodies ≡ length setup.layout }
        requires initial { All (λ body. S.base body ≡ S.initial) bodies.items }
        requires first { All (λ body. S.before body ≡ 0) bodies.items }
        requires empty { All (λ body. S.requests body ≡ []) bodies.items }
        requires least_ceiling { 3 ≤ setup.ceiling }
        requires greatest_ceiling { setup.ceiling < 2 ^ 36 }
        ensures { IfOk result
            (λ world. StandsFor world (empty_world (setup_frame setup (map S.limit bodies.items)))) }
    {
        let Setup {
            layout,
            desk,
            ceiling,
        } = setup;
        let count = layout.count();
        desk.soundness();
        let parts = empty_parts(alloc, count, ceiling, bodies)?;
        let (table, bodies, routes, in_hand) = parts;
        Ok(World {
            layout,
            desk,
            table,
            bodies,
            routes,
            in_flight: Vec::new(alloc),
            in_hand,
        })
    }

    /// Returns the shard whose range covers the request's key.
    pub fn shard_of(&self, request: &S::Request) -> ShardId
        ensures within { result < length self.now.bounds }
        ensures value { result ≡ shard_of self.now.bounds (S.key_of request.now) }
    {
        self.layout.shard_of(S::key(request))
    }

    /// Returns the record of a shard.
    pub fn record(&self, k: ShardId) -> Record
        requires { k < length self.now.bounds }
        ensures { result ≡ record_at self.now.records k }
    {
        self.table.record(k)
    }

    /// Returns the desk that checks commands.
    pub fn desk(&self) -> &Desk
        ensures { result.now ≡ self.now.desk }
    {
        &self.desk
    }

    /// Returns the published route of a shard, if there is one.
    pub fn route(&self, k: ShardId) -> Option<Route>
        requires { k < length self.now.bounds }
        ensures { result ≡ slice_index_or self.now.routes k None }
    {
        self.routes[k.index()]
    }

    /// Makes a step. If the world stands for a world of the definitions, it answers as that one does, and then stands
    /// for the next one. A step that a fault refuses changes nothing. The caller is told of want of memory only for a
    /// `Send` and a `Checkpoint`, by `NoMemory`, and for a `Finish`, which then refuses its request.
    pub fn step(&mut self, step: Step<S::Request>) -> Result<WorldAnswer<S::Reply>, WorldFault>
        ensures stands { GoesAs (meaning_of S.initial S.next S.answer S.key_of) self.old result self.new step }
        ensures marks { may_go step (mark_of result) ≡ true }
        ensures bounds { self.new.bounds ≡ self.old.bounds }
    {
        match step {
            Step::Control(command) => self.control(command),
            Step::Look(k) => self.look(k),
            Step::Send(to, number, request) => {
                let k = self.shard_of(&request);
                self.send(to, number, k, request)
            }
            Step::Deliver(place) => self.deliver(place),
            Step::Finish(k) => self.finish(k),
            Step::Lose(place) => self.lose(place),
            Step::Hold(k, server) => self.hold(k, server),
            Step::Free(k) => self.free(k),
            Step::Checkpoint(k, server) => self.checkpoint(k, server),
            Step::Publish(k) => self.publish(k),
            Step::RouteOf(key) => self.route_of(key.as_bytes()),
        }
    }

    // Makes a command, unless it is refused.
    fn control(&mut self, command: Command) -> Result<WorldAnswer<S::Reply>, WorldFault>
        ensures stands { GoesAs (meaning_of S.initial S.next S.answer S.key_of) self.old result self.new
            (ControlOf command) }
        ensures marks { may_go {Q = S.Request} (ControlOf command) (mark_of result) ≡ true }
        ensures bounds { self.new.bounds ≡ self.old.bounds }
    {
        match command {
            Command::Change(k, change) => self.change(k, &change),
            _ => self.restart(command),
        }
    }

    // Makes a step of a server's restart, unless the desk refuses it.
    fn restart(&mut self, command: Command) -> Result<WorldAnswer<S::Reply>, WorldFault>
        requires { is_restart command ≡ true }
        ensures stands { GoesAs (meaning_of S.initial S.next S.answer S.key_of) self.old result self.new
            (ControlOf command) }
        ensures marks { may_go {Q = S.Request} (ControlOf command) (mark_of result) ≡ true }
        ensures bounds { self.new.bounds ≡ self.old.bounds }
    {
        self.desk.check(&command)?;
        self.desk.commit(command);
        Ok(WorldAnswer::Made)
    }

    // Changes the stand of a shard, unless the desk or the table refuses it.
    fn change(&mut self, k: ShardId, change: &Change) -> Result<WorldAnswer<S::Reply>, WorldFault>
        ensures stands { GoesAs (meaning_of S.initial S.next S.answer S.key_of) self.old result self.new
            (ControlOf (ChangeOf k change.now)) }
        ensures marks { may_go {Q = S.Request} (ControlOf (ChangeOf k change.now)) (mark_of result) ≡ true }
        ensures bounds { self.new.bounds ≡ self.old.bounds }
    {
        let stand = self.desk.check_change(k, change)?;
        if let Err(fault) = self.table.change_to(k, change, &stand) {
            return Err(WorldFault::Command(fault.into()));
        }
        self.desk.commit_change(k, change, &stand);
        Ok(WorldAnswer::Made)
    }

    // Reads the record of a shard.
    fn look(&self, k: ShardId) -> Result<WorldAnswer<S::Reply>, WorldFault>
        ensures stands { GoesAs (meaning_of S.initial S.next S.answer S.key_of) self.now result self.now (LookAt k) }
        ensures marks { may_go {Q = S.Request} (LookAt k) (mark_of result) ≡ true }
    {
        if k.index() < self.table.count() {
            Ok(WorldAnswer::Seen(self.table.record(k)))
        } else {
            Err(WorldFault::UnknownShard)
        }
    }

    /// Puts a direct request for the server in flight, as `Step::Send` does; `k` must be the shard of the request's
    /// key. Returns `Sent`, `UnknownServer`, `Unreachable` or `NoMemory`.
    pub fn send(
        &mut self,
        to: ServerId,
        number: u64,
        k: ShardId,
        request: S::Request,
    ) -> Result<WorldAnswer<S::Reply>, WorldFault>
        requires within { k < length self.old.bounds }
        requires shard { k ≡ shard_of self.old.bounds (S.key_of request) }
        ensures stands { GoesAs (meaning_of S.initial S.next S.answer S.key_of) self.old result self.new
            (SendOf to number request) }
        ensures marks { may_go (SendOf to number request) (mark_of result) ≡ true }
        ensures bounds { self.new.bounds ≡ self.old.bounds }
    {
        if !self.desk.knows(to) {
            return Err(WorldFault::UnknownServer);
        }
        if !self.desk.reaches(to) {
            return Err(WorldFault::Unreachable);
        }
        let flight = Flight {
            to,
            envelope: Envelope::new(number, k, request, ()),
        };
        if self.in_flight.push(flight).is_err() {
            return Err(WorldFault::NoMemory);
        }
        Ok(WorldAnswer::Sent)
    }

    // Has an envelope in flight reach its server, which forwards it, begins it, or refuses it.
    fn deliver(&mut self, place: usize) -> Result<WorldAnswer<S::Reply>, WorldFault>
        ensures stands { GoesAs (meaning_of S.initial S.next S.answer S.key_of) self.old result self.new
            (DeliverAt place) }
        ensures marks { may_go {Q = S.Request} (DeliverAt place) (mark_of result) ≡ true }
        ensures bounds { self.new.bounds ≡ self.old.bounds }
    {
        if place >= self.in_flight.len() {
            return Err(WorldFault::NoEnvelope);
        }
        let Flight { to, envelope } = self.in_flight.remove(place);
        let k = envelope.shard();
        let state = self.table.record(k);
        if state.forward_to(to).is_some() {
            return Ok(send_on(&mut self.in_flight, &self.desk, &state, to, envelope));
        }
        let number = envelope.number();
        let mode = envelope.mode();
        let (request, _, _) = envelope.parts();
        if let Err(fault) = self.admit(k, to, mode, Some(Work { number, request })) {
            return Ok(WorldAnswer::Refused(Refusal::Admit(fault)));
        }
        Ok(WorldAnswer::Began(to))
    }

    // Has the admitted server execute the request in hand, which ends its admission.
    fn finish(&mut self, k: ShardId) -> Result<WorldAnswer<S::Reply>, WorldFault>
        ensures stands { GoesAs (meaning_of S.initial S.next S.answer S.key_of) self.old result self.new (FinishAt k) }
        ensures marks { may_go {Q = S.Request} (FinishAt k) (mark_of result) ≡ true }
        ensures bounds { self.new.bounds ≡ self.old.bounds }
    {
        let Some((server, work)) = self.in_hand.take_work(k) else {
            return Err(WorldFault::NotHeld);
        };
        let Work { number, request } = work;
        self.table.done(k);
        let place = self.bodies.applied(k);
        match self.bodies.apply(k, request) {
            Ok(reply) => Ok(WorldAnswer::Replied {
                number,
                server,
                reply,
                place,
            }),
            Err((_, ApplyFault::KeptFull)) => Ok(WorldAnswer::Refused(Refusal::KeptFull)),
            Err((_, ApplyFault::NoMemory)) => Ok(WorldAnswer::Refused(Refusal::NoMemory)),
        }
    }

    // Loses an envelope in flight.
    fn lose(&mut self, place: usize) -> Result<WorldAnswer<S::Reply>, WorldFault>
        ensures stands { GoesAs (meaning_of S.initial S.next S.answer S.key_of) self.old result self.new
            (LoseAt place) }
        ensures marks { may_go {Q = S.Request} (LoseAt place) (mark_of result) ≡ true }
        ensures bounds { self.new.bounds ≡ self.old.bounds }
    {
        if place >= self.in_flight.len() {
            return Err(WorldFault::NoEnvelope);
        }
        self.in_flight.remove(place);
        Ok(WorldAnswer::Made)
    }

    // Admits the server to the shard without a request.
    fn hold(&mut self, k: ShardId, server: ServerId) -> Result<WorldAnswer<S::Reply>, WorldFault>
        ensures stands { GoesAs (meaning_of S.initial S.next S.answer S.key_of) self.old result self.new
            (HoldAt k server) }
        ensures marks { may_go {Q = S.Request} (HoldAt k server) (mark_of result) ≡ true }
        ensures bounds { self.new.bounds ≡ self.old.bounds }
    {
        if k.index() >= self.table.count() {
            return Err(WorldFault::UnknownShard);
        }
        if !self.desk.knows(server) {
            return Err(WorldFault::UnknownServer);
        }
        if let Err(fault) = self.admit(k, server, Mode::Direct, None) {
            return Err(WorldFault::Admit(fault));
        }
        Ok(WorldAnswer::Made)
    }

    // Ends an admission without a request.
    fn free(&mut self, k: ShardId) -> Result<WorldAnswer<S::Reply>, WorldFault>
        ensures stands { GoesAs (meaning_of S.initial S.next S.answer S.key_of) self.old result self.new (FreeAt k) }
        ensures marks { may_go {Q = S.Request} (FreeAt k) (mark_of result) ≡ true }
        ensures bounds { self.new.bounds ≡ self.old.bounds }
    {
        if k.index() >= self.table.count() {
            return Err(WorldFault::UnknownShard);
        }
        if !self.in_hand.let_go(k) {
            return Err(WorldFault::NotHeld);
        }
        self.table.done(k);
        Ok(WorldAnswer::Made)
    }

    // Admits the server to the shard, makes the shard's present state its base, and ends the admission.
    fn checkpoint(
        &mut self,
        k: ShardId,
        server: ServerId,
    ) -> Result<WorldAnswer<S::Reply>, WorldFault>
        ensures stands { GoesAs (meaning_of S.initial S.next S.answer S.key_of) self.old result self.new
            (CheckpointAt k server) }
        ensures marks { may_go {Q = S.Request} (CheckpointAt k server) (mark_of result) ≡ true }
        ensures bounds { self.new.bounds ≡ self.old.bounds }
    {
        if k.index() >= self.table.count() {
            return Err(WorldFault::UnknownShard);
        }
        let is_known = self.desk.knows(server);
        if !is_known {
            return Err(WorldFault::UnknownServer);
        }
        let state = self.table.record(k);
        if let Some(fault) = state.admit_fault(server, Mode::Direct, self.table.ceiling()) {
            return Err(WorldFault::Admit(fault));
        }
        if self.bodies.checkpoint(k).is_err() {
            return Err(WorldFault::NoMemory);
        }
        let Ok(()) = self.table.admit(k, server, Mode::Direct) else {
            unreachable!()
        };
        self.table.done(k);
        Ok(WorldAnswer::Made)
    }

    // Publishes the shard's owner at its generation, if it has one and the generation is above the shard's last route.
    fn publish(&mut self, k: ShardId) -> Result<WorldAnswer<S::Reply>, WorldFault>
        ensures stands { GoesAs (meaning_of S.initial S.next S.answer S.key_of) self.old result self.new (PublishAt k) }
        ensures marks { may_go {Q = S.Request} (PublishAt k) (mark_of result) ≡ true }
        ensures bounds { self.new.bounds ≡ self.old.bounds }
    {
        if k.index() >= self.table.count() {
            return Err(WorldFault::UnknownShard);
        }
        let Some(route) = self.table.record(k).route(k) else {
            return Err(WorldFault::WrongPhase);
        };
        if route.is_old(self.route(k)) {
            return Err(WorldFault::OldRoute);
        }
        self.routes[k.index()] = Some(route);
        Ok(WorldAnswer::Made)
    }

    // Reads the published route of the shard whose range covers the key.
    fn route_of(&self, key: &[u8]) -> Result<WorldAnswer<S::Reply>, WorldFault>
        ensures stands { GoesAs (meaning_of S.initial S.next S.answer S.key_of) self.now result self.now
            (RouteOfKey key.now) }
        ensures marks { may_go {Q = S.Request} (RouteOfKey key.now) (mark_of result) ≡ true }
    {
        let k = self.layout.shard_of(key);
        Ok(WorldAnswer::Way(self.route(k)))
    }

    // Admits the server to the shard and gives it the work in hand, unless the shard's record refuses it.
    fn admit(
        &mut self,
        k: ShardId,
        server: ServerId,
        mode: Mode,
        work: Option<Work<S::Request>>,
    ) -> Result<(), AdmitFault>
        requires { k < length self.old.records }
        ensures fault { result_err result
            ≡ admit_fault self.old.ceiling (record_at self.old.records k) server mode }
        ensures admitted { OnOk result
            (self.new ≡ with_admission self.old k (record { server = server; work = work })) }
        ensures unchanged { OnErr result (self.new ≡ self.old) }
    {
        self.table.admit(k, server, mode)?;
        self.in_hand.put(k, InHand { server, work });
        Ok(())
    }
}

// Returns the parts of a world of this many shards, beside its layout and its desk, before anything has happened. They
// are made here because each exit of `World::new` would drop both of those.
fn empty_parts<S: Service>(
    alloc: Global,
    count: usize,
    ceiling: u64,
    bodies: Vec<S>,
) -> Result<(Table, Bodies<S>, Vec<Option<Route>>, Hands<S::Request>), AllocError>
    requires initial { All (λ body. S.base body ≡ S.initial) bodies.items }
    requires first { All (λ body. S.before body ≡ 0) bodies.items }
    requires empty { All (λ body. S.requests body ≡ []) bodies.items }
    ensures records { IfOk result (λ parts. parts.0.records ≡ replicate count vacant) }
    ensures ceiling { IfOk result (λ parts. parts.0.ceiling ≡ ceiling) }
    ensures pasts { IfOk result (λ parts. parts.1.pasts ≡ replicate (length bodies.items) no_past) }
    ensures limits { IfOk result (λ parts. parts.1.limits ≡ map S.limit bodies.items) }
    ensures routes { IfOk result (λ parts. parts.2.items ≡ replicate count None) }
    ensures in_hand { IfOk result (λ parts. parts.3 ≡ replicate count None) }
{
    let table = Table::new(alloc, count, ceiling)?;
    let bodies = Bodies::new(alloc, bodies)?;
    let routes = no_routes(alloc, count)?;
    let in_hand = Hands::none(alloc, count)?;
    Ok((table, bodies, routes, in_hand))
}

// Returns no route for each of this many shards.
fn no_routes(alloc: Global, count: usize) -> Result<Vec<Option<Route>>, AllocError>
    ensures { IfOk result (λ routes. routes.items ≡ replicate count None) }
{
    vec![in alloc; None; count]
}

// Passes on an envelope that reached a server that forwards requests: puts it last in flight again, or refuses it if no
// hop is left or the next server isn't reached.
fn send_on<Q: Drop, R>(
    in_flight: &mut Vec<Flight<Q>>,
    desk: &Desk,
    state: &Record,
    at: ServerId,
    envelope: Envelope<Q, ()>,
) -> WorldAnswer<R>
    requires room { vec_len in_flight.old < vec_capacity in_flight.old }
    ensures hop { (
      result,
      in_flight.new.items,
    ) ≡ after_hop desk.now in_flight.old.items (forwarded envelope state.now at) }
    ensures plain { mark_of (Ok result) ≡ Plain }
{
    match envelope.forwarded(state, at) {
        Ok((to, envelope)) => {
            if !desk.reaches(to) {
                return WorldAnswer::Refused(Refusal::Unreachable);
            }
            in_flight.push_reserved(Flight { to, envelope });
            WorldAnswer::Forwarded(to)
        }
        Err(_) => WorldAnswer::Refused(Refusal::TooManyHops),
    }
}
