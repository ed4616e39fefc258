//! The start of a cluster.
ghost use Rattle.std.specs.Prelude.{◌≡◌, ◌≢◌, ◌<◌, ◌≤◌, ◌*◌, ◌^◌, ◌↔◌, All, Err, IfErr, IfOk, IsTrue, None, [], length};
ghost use Rattle.std.specs.Prelude.{IsOk, OnOk, map, replicate};
ghost use Rattle.std.specs.Arc.{arc_value};
ghost use Rattle.sm_ranges.specs.declared.stand.Stand.TheVariants.{Vacant};
ghost use Rattle.sm_rule.specs.Boards.{make_fault};
ghost use Rattle.sm_cluster.specs.Clusters.{IsClientOf};
ghost use Rattle.sm_cluster.specs.Holding.{AreHoldsOn};
ghost use Rattle.sm_cluster.specs.Teams.{teams_of};

use super::Cluster;
use super::telling::report;
use crate::MAX_WORKERS;
use crate::crew::Crew;
use crate::holds::Holds;
use crate::setup::Setup;
use crate::start_fault::StartFault;
use sm_body::service::Service;
use sm_calls::{Client, Gate, Ground, Message, Network, network_of};
use sm_control::Control;
use sm_desk::Desk;
use sm_inbox::Inbox;
use sm_publish::{Publisher, Router};
use sm_ranges::layout::Layout;
use sm_rule::board::Board;
use std::alloc::{AllocError, Global};
use std::sync::{Arc, Wait};
use std::thread::Threads;

// The parts of a cluster before its threads are started.
#[derive(Drop)]
struct Parts<S: Service> {
    ground: Arc<Ground<S>>,
    network: Arc<Network<Message<S>>>,
    control: Control<S>,
    inboxes: Vec<Inbox<Message<S>>>,
}

impl<S: Service + 'static> Cluster<S>
where
    S::Request: 'static,
    S::Reply: 'static,
{
    /// Starts so many workers for each server, at least one, and makes so many clients, 1 to 2^32 - 1. On a fault
    /// returns the first one that applies; the workers that were started are then stopped and joined. The bodies must
    /// not have applied anything yet.
    pub fn start<
        G: Gate + Send + Sync + Drop + 'static,
        R: Threads + Wait + Clone + Send + Drop + 'static,
    >(
        rt: &R,
        alloc: Global,
        setup: Setup,
        bodies: Vec<S>,
        workers: u32,
        clients: usize,
        gate: G,
    ) -> Result<(Cluster<S>, Vec<Client<S>>), StartFault>
        requires sizes { make_fault (length bodies.items) setup.ceiling ≡ None }
        requires shards { length setup.desk.books.shards ≡ length bodies.items }
        requires vacant { All (λ shard. shard.stand ≡ Vacant) setup.desk.books.shards }
        requires initial { All (λ body. S.base body ≡ S.initial) bodies.items }
        requires before { All (λ body. S.before body ≡ 0) bodies.items }
        requires empty { All (λ body. S.requests body ≡ []) bodies.items }
        requires workers { 0 < workers }
        requires clients { (0 < clients) × (clients < 2 ^ 32) }
        ensures too_many { MAX_WORKERS < length setup.desk.books.servers * workers
            → result ≡ Err StartFault.TooManyWorkers }
        ensures enough { length setup.desk.books.servers * workers ≤ MAX_WORKERS
            → IfErr result (λ fault. fault ≢ StartFault.TooManyWorkers) }
        ensures seen { IfOk result (λ made. made.0.control.chair.seen ≡ []) }
        ensures desk { IfOk result (λ made. made.0.control.desk ≡ setup.desk) }
        ensures count { IfOk result (λ made. made.0.control.chair.board.limits.count ≡ length bodies.items) }
        ensures ceiling { IfOk result (λ made. made.0.control.chair.board.limits.ceiling ≡ setup.ceiling) }
        ensures limits { IfOk result (λ made. made.0.control.chair.board.limits.bodies ≡ map S.limit bodies.items) }
        ensures bounds { IfOk result (λ made. made.0.bounds ≡ setup.layout) }
        ensures holds { IfOk result (λ made. made.0.holds ≡ replicate (length bodies.items) None) }
        ensures map { IfOk result (λ made. made.0.map.map ≡ record { count = length bodies.items; published = [] }) }
        // As many workers were started for each server as were asked for.
        ensures teams { IfOk result (λ made.
            made.0.teams ≡ teams_of workers (map (λ row. row.id) setup.desk.books.servers)) }
        ensures routers { IfOk result (λ made.
            map (λ client. client.router) made.1.items
            ≡ replicate clients (record { table = made.0.map.table; seen = [] })) }
        ensures clients { IfOk result (λ made. length made.1.items ≡ clients) }
        ensures theirs { IfOk result (λ made. All (IsClientOf made.0) made.1.items) }
    {
        if is_too_many(&setup.desk, workers) {
            return Err(StartFault::TooManyWorkers);
        }
        let parts = parts_of(rt, alloc, setup, bodies, workers)?;
        with_clients(rt, alloc, parts, workers, clients, gate)
    }
}

// Whether all servers together would have more workers than a cluster may.
fn is_too_many(desk: &Desk, workers: u32) -> bool
    requires { 0 < workers }
    ensures { IsTrue result ↔ MAX_WORKERS < length desk.now.books.servers * workers }
{
    let servers = desk.books().rows().len();
    servers > MAX_WORKERS as usize || servers as u64 * u64::from(workers) > u64::from(MAX_WORKERS)
}

// Makes a board with its control, and the network to its servers, each with so many workers.
fn parts_of<S: Service, R: Wait>(
    rt: &R,
    alloc: Global,
    setup: Setup,
    bodies: Vec<S>,
    workers: u32,
) -> Result<Parts<S>, StartFault>
    requires sizes { make_fault (length bodies.items) setup.ceiling ≡ None }
    requires shards { length setup.desk.books.shards ≡ length bodies.items }
    requires vacant { All (λ shard. shard.stand ≡ Vacant) setup.desk.books.shards }
    requires initial { All (λ body. S.base body ≡ S.initial) bodies.items }
    requires before { All (λ body. S.before body ≡ 0) bodies.items }
    requires empty { All (λ body. S.requests body ≡ []) bodies.items }
    ensures fault { IfErr result (λ fault. fault ≢ StartFault.TooManyWorkers) }
    ensures seen { IfOk result (λ parts. parts.control.chair.seen ≡ []) }
    ensures desk { IfOk result (λ parts. parts.control.desk ≡ setup.desk) }
    ensures count { IfOk result (λ parts. parts.control.chair.board.limits.count ≡ length bodies.items) }
    ensures ceiling { IfOk result (λ parts. parts.control.chair.board.limits.ceiling ≡ setup.ceiling) }
    ensures limits { IfOk result (λ parts. parts.control.chair.board.limits.bodies ≡ map S.limit bodies.items) }
    ensures board { IfOk result (λ parts. parts.control.chair.board ≡ (arc_value parts.ground).board) }
    ensures bounds { IfOk result (λ parts. (arc_value parts.ground).layout ≡ setup.layout) }
    ensures inboxes { IfOk result (λ parts.
        map (λ inbox. inbox.server) parts.inboxes.items ≡ map (λ row. row.id) setup.desk.books.servers) }
{
    let Setup {
        layout,
        desk,
        ceiling,
    } = setup;
    let (ground, control) = ground_of(alloc, layout, bodies, desk, ceiling)?;
    let rows = control.desk().books().rows();
    let (network, inboxes) = network_of(rt, alloc, rows, ground.layout.count(), workers)?;
    Ok(Parts {
        ground,
        network,
        control,
        inboxes,
    })
}

// A board of these bodies with this layout, and its control.
fn ground_of<S: Service>(
    alloc: Global,
    layout: Layout,
    bodies: Vec<S>,
    desk: Desk,
    ceiling: u64,
) -> Result<(Arc<Ground<S>>, Control<S>), StartFault>
    requires sizes { make_fault (length bodies.items) ceiling ≡ None }
    requires shards { length desk.books.shards ≡ length bodies.items }
    requires vacant { All (λ shard. shard.stand ≡ Vacant) desk.books.shards }
    requires initial { All (λ body. S.base body ≡ S.initial) bodies.items }
    requires before { All (λ body. S.before body ≡ 0) bodies.items }
    requires empty { All (λ body. S.requests body ≡ []) bodies.items }
    ensures fault { IfErr result (λ fault. fault ≢ StartFault.TooManyWorkers) }
    ensures seen { IfOk result (λ made. made.1.chair.seen ≡ []) }
    ensures desk { IfOk result (λ made. made.1.desk ≡ desk) }
    ensures count { IfOk result (λ made. made.1.chair.board.limits.count ≡ length bodies.items) }
    ensures ceiling { IfOk result (λ made. made.1.chair.board.limits.ceiling ≡ ceiling) }
    ensures limits { IfOk result (λ made. made.1.chair.board.limits.bodies ≡ map S.limit bodies.items) }
    ensures board { IfOk result (λ made. made.1.chair.board ≡ (arc_value made.0).board) }
    ensures bounds { IfOk result (λ made. (arc_value made.0).layout ≡ layout) }
{
    let Ok((board, chair)) = Board::make(alloc, bodies, ceiling) else {
        return Err(StartFault::NoMemory);
    };
    match Arc::new(alloc, Ground { board, layout }) {
        Ok(ground) => Ok((ground, Control::new(chair, desk))),
        Err(_) => Err(StartFault::NoMemory),
    }
}

// Makes the cluster of these parts, whose workers are started, and so many clients of it.
fn with_clients<
    S: Service + 'static,
    G: Gate + Send + Sync + Drop + 'static,
    R: Threads + Wait + Clone + Send + Drop + 'static,
>(
    rt: &R,
    alloc: Global,
    parts: Parts<S>,
    workers: u32,
    clients: usize,
    gate: G,
) -> Result<(Cluster<S>, Vec<Client<S>>), StartFault>
where
    S::Request: 'static,
    S::Reply: 'static,
    requires board { parts.control.chair.board ≡ (arc_value parts.ground).board }
    requires clients { (0 < clients) × (clients < 2 ^ 32) }
    ensures fault { IfErr result (λ fault. fault ≢ StartFault.TooManyWorkers) }
    ensures control { IfOk result (λ made. made.0.control ≡ parts.control) }
    ensures bounds { IfOk result (λ made. made.0.bounds ≡ (arc_value parts.ground).layout) }
    ensures holds { IfOk result (λ made. made.0.holds ≡ replicate parts.control.chair.board.limits.count None) }
    ensures map { IfOk result
        (λ made. made.0.map.map ≡ record { count = parts.control.chair.board.limits.count; published = [] }) }
    ensures teams { IfOk result (λ made.
        made.0.teams ≡ teams_of workers (map (λ inbox. inbox.server) parts.inboxes.items)) }
    ensures routers { IfOk result (λ made.
        map (λ client. client.router) made.1.items
        ≡ replicate clients (record { table = made.0.map.table; seen = [] })) }
    ensures clients { IfOk result (λ made. length made.1.items ≡ clients) }
    ensures theirs { IfOk result (λ made. All (IsClientOf made.0) made.1.items) }
{
    let shards = parts.ground.board.count() as usize;
    let (publisher, routers) = Publisher::new(rt, alloc, shards, clients)?;
    match clients_of(alloc, &parts.ground, &parts.network, routers) {
        Ok(clients) => match manned(rt, alloc, parts, publisher, workers, gate) {
            Ok(cluster) => Ok((cluster, clients)),
            Err(fault) => Err(fault),
        },
        Err(_) => {
            publisher.end(rt);
            Err(StartFault::NoMemory)
        }
    }
}

// A client for each of the routers.
fn clients_of<S: Service>(
    alloc: Global,
    ground: &Arc<Ground<S>>,
    network: &Arc<Network<Message<S>>>,
    routers: Vec<Router>,
) -> Result<Vec<Client<S>>, AllocError>
    ensures count { IfOk result (λ clients. length clients.items ≡ length routers.items) }
    ensures routers { IfOk result (λ clients. map (λ client. client.router) clients.items ≡ routers.items) }
    ensures boards { IfOk result
        (λ clients. All (λ client. client.pass.board ≡ (arc_value ground.now).board) clients.items) }
    ensures bounds { IfOk result
        (λ clients. All (λ client. client.bounds ≡ (arc_value ground.now).layout) clients.items) }
{
    let mut clients = Vec::new(alloc);
    for router in routers {
        let ground = Arc::try_clone(ground)?;
        let network = Arc::try_clone(network)?;
        clients.push(Client::new(ground, network, router))?;
    }
    Ok(clients)
}

// Makes the cluster of these parts, and starts its workers. If that is refused, stops those that were started.
fn manned<
    S: Service + 'static,
    G: Gate + Send + Sync + Drop + 'static,
    R: Threads + Wait + Clone + Send + Drop + 'static,
>(
    rt: &R,
    alloc: Global,
    parts: Parts<S>,
    publisher: Publisher,
    workers: u32,
    gate: G,
) -> Result<Cluster<S>, StartFault>
where
    S::Request: 'static,
    S::Reply: 'static,
    requires { parts.control.chair.board ≡ (arc_value parts.ground).board }
    ensures fault { IfErr result (λ fault. fault ≢ StartFault.TooManyWorkers) }
    ensures control { IfOk result (λ cluster. cluster.control ≡ parts.control) }
    ensures map { IfOk result (λ cluster. cluster.map ≡ publisher) }
    ensures teams { IfOk result (λ cluster.
        cluster.teams ≡ teams_of workers (map (λ inbox. inbox.server) parts.inboxes.items)) }
    ensures bounds { IfOk result (λ cluster. cluster.bounds ≡ (arc_value parts.ground).layout) }
    ensures holds { IfOk result (λ cluster. cluster.holds ≡ replicate parts.control.chair.board.limits.count None) }
{
    let mut crew = Crew::new(alloc);
    let inboxes = parts.inboxes.as_slice();
    let started = crew.start(rt, alloc, &parts.network, gate, inboxes, workers);
    match room_once(started, alloc, &parts.ground.board) {
        Ok(holds) => Ok(cluster_of(parts, publisher, holds, crew)),
        Err(fault) => {
            crew.stop(rt, &*parts.network);
            publisher.end(rt);
            Err(fault)
        }
    }
}

// Makes room for holds, once all workers were started.
fn room_once<S: Service>(
    started: Result<(), StartFault>,
    alloc: Global,
    board: &Board<S>,
) -> Result<Holds<S>, StartFault>
    requires { IfErr started (λ fault. fault ≢ StartFault.TooManyWorkers) }
    ensures ok { OnOk result (IsOk started) }
    ensures fault { IfErr result (λ fault. fault ≢ StartFault.TooManyWorkers) }
    ensures none { IfOk result (λ holds. holds ≡ replicate board.now.limits.count None) }
    ensures theirs { IfOk result (λ holds. AreHoldsOn board.now holds) }
{
    started?;
    let holds = Holds::new(alloc, board)?;
    Ok(holds)
}

// Makes the cluster of these parts, with its map, its holds and its crew. It tells everything that the control has
// seen.
fn cluster_of<S: Service>(
    parts: Parts<S>,
    publisher: Publisher,
    holds: Holds<S>,
    crew: Crew,
) -> Cluster<S>
    requires board { parts.control.chair.board ≡ (arc_value parts.ground).board }
    requires holds { AreHoldsOn (arc_value parts.ground).board holds }
    ensures { result ≡ record {
      control = parts.control;
      map = publisher;
      bounds = (arc_value parts.ground).layout;
      holds = holds;
      told = result.told;
      teams = crew;
    } }
{
    let Parts {
        ground,
        network,
        mut control,
        inboxes: _,
    } = parts;
    let mut teller = ground.board.pass(None);
    report(&ground.board, &mut control, &mut teller);
    Cluster {
        ground,
        network,
        control,
        publisher,
        holds,
        teller,
        crew,
    }
}
