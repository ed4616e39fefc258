mod calls;
mod requests;

ghost use Rattle.std.specs.Prelude.{◌≡◌, All, IfErr, IfOk, length};
ghost use Rattle.sm_settings.specs.SettingsLine.{values_of};
ghost use Rattle.sm_settings.specs.SettingsRules.{KeepsRules};
ghost use Rattle.sm_threads.specs.Sessions.{IsBegun, IsNewClientOf, MayRefuse};

use crate::counts_listener::CountsListener;
use crate::refusals::begin_fault;
use sm_cluster::{Client, Cluster, Gate, Setup};
use sm_lines::BeginFault;
use sm_service::CounterText;
use sm_session::beginning::{desk_of, empty_bodies};
use sm_settings::settings::Settings;
use std::alloc::Global;
use std::marker::Model;
use std::sync::Wait;
use std::thread::Threads;

/// The most clients that take part in a load: one that reads the count, and 16 that add to it.
pub(crate) const LOADERS: usize = 17;

/// How many clients a cluster has: those of a load, and the one that makes the script's requests.
const CLIENTS: usize = LOADERS + 1;

/// A cluster of the sample service on which a script's calls are made, one at a time. It must be stopped. Contracts see
/// its cluster, the client that makes the script's requests, and those that make loads.
pub(crate) struct ClusterBackend<R> {
    rt: R,
    alloc: Global,
    cluster: Cluster<CounterText>,
    client: Client<CounterText>,
    loaders: Vec<Client<CounterText>>,
}

impl<R> Model for ClusterBackend<R> {
    ghost use Rattle.std.specs.Prelude.{◌≡◌, All, length};
    ghost use Rattle.sm_cluster.specs.Clusters.{IsClientOf};
    ghost use Rattle.sm_threads.specs.Sessions.{IsWhole, SessionValue};
    ghost use Rattle.sm_threads.specs.declared.cluster_backend.TheConstants.{LOADERS};

    ghost Value = { SessionValue };

    ghost view = { λ backend. record {
      cluster = backend.cluster;
      client = backend.client;
      loaders = backend.loaders.items;
    } };

    ghost invariant = { λ backend. IsWhole (record {
      cluster = backend.cluster;
      client = backend.client;
      loaders = backend.loaders.items;
    })
        × All (IsClientOf backend.cluster) backend.loaders.items × (length backend.loaders.items ≡ LOADERS) };
}

impl<R: Threads + Wait + Clone + Send + Drop + 'static> ClusterBackend<R> {
    /// Starts a cluster with these settings in which nothing has happened, or returns why it can't.
    pub(crate) fn start<G: Gate + Send + Sync + Drop + 'static>(
        rt: &R,
        alloc: Global,
        settings: Settings,
        gate: G,
    ) -> Result<ClusterBackend<R>, BeginFault>
        requires { KeepsRules (values_of settings) }
        ensures begun { IfOk result (IsBegun (values_of settings)) }
        ensures refused { IfErr result (MayRefuse (values_of settings)) }
    {
        let mine = rt.clone()?;
        let count = settings.layout.count();
        let desk = desk_of(alloc, &settings)?;
        let bodies = empty_bodies(alloc, count, settings.kept as usize)?;
        let setup = Setup {
            layout: settings.layout,
            desk,
            ceiling: settings.ceiling,
        };
        let workers = u32::from(settings.workers);
        match Cluster::start(rt, alloc, setup, bodies, workers, CLIENTS, gate) {
            Ok((cluster, clients)) => Ok(backend_of(mine, alloc, cluster, clients)),
            Err(fault) => Err(begin_fault(fault)),
        }
    }
}

impl<R> ClusterBackend<R> {
    /// Tells the listener the cluster's counts, if there is memory for them.
    pub(crate) fn tell_counts<L: CountsListener>(&self, listener: &L) {
        if let Ok(counts) = self.cluster.counts(self.alloc) {
            listener.hear_counts(&counts);
        }
    }
}

impl<R: Threads + Wait + Drop> ClusterBackend<R> {
    /// Stops the cluster. The contents of its shards are dropped.
    pub(crate) fn stop(self) {
        let ClusterBackend {
            rt,
            alloc: _,
            cluster,
            client,
            loaders,
        } = self;
        drop(client);
        let _stopped = cluster.stop(&rt, loaders).is_ok();
    }
}

/// Makes the backend of a cluster and its clients, the last of which makes the script's requests.
fn backend_of<R>(
    rt: R,
    alloc: Global,
    mut cluster: Cluster<CounterText>,
    clients: Vec<Client<CounterText>>,
) -> ClusterBackend<R>
    requires clients { length clients.items ≡ CLIENTS }
    requires fresh { All (IsNewClientOf cluster) clients.items }
    requires shards { cluster.control.chair.board.limits.count ≡ length cluster.bounds }
    ensures cluster { result.cluster ≡ cluster }
    ensures client { IsNewClientOf cluster result.client }
    ensures loaders { All (IsNewClientOf cluster) result.loaders }
    ensures enough { length result.loaders ≡ LOADERS }
{
    let mut loaders = clients;
    let mut client = loaders.pop().unwrap();
    cluster.tell(&mut client);
    ClusterBackend {
        rt,
        alloc,
        cluster,
        client,
        loaders,
    }
}
