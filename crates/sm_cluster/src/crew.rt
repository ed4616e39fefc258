//! The threads of a cluster: for each server a team of workers, which share an inbox.
ghost use Rattle.std.specs.Prelude.{◌≡◌, ◌≢◌, ◌++◌, ◌∷◌, [], IfErr, OnOk, map};
ghost use Rattle.sm_cluster.specs.Teams.{team_with, teams_of};

use crate::start_fault::StartFault;
use sm_body::service::Service;
use sm_calls::{Gate, Message, Network, work};
use sm_inbox::Inbox;
use sm_ranges::server_id::ServerId;
use std::alloc::Global;
use std::marker::Model;
use std::sync::{Arc, Wait};
use std::thread;
use std::thread::{JoinHandle, Threads};

/// The workers of one server. Contracts see how many there are.
#[derive(Drop)]
struct Team {
    server: ServerId,
    threads: Vec<JoinHandle<()>>,
}

impl Model for Team {
    ghost use Rattle.std.specs.Prelude.{length};
    ghost use Rattle.sm_cluster.specs.Teams.{TeamValue};

    ghost Value = { TeamValue };

    ghost view = { λ team. record { server = team.server; workers = length team.threads.items } };
}

/// All workers. It must be stopped, because it can't be dropped. Contracts see its teams.
pub(crate) struct Crew {
    teams: Vec<Team>,
}

impl Model for Crew {
    ghost use Rattle.std.specs.Prelude.{List};
    ghost use Rattle.sm_cluster.specs.Teams.{TeamValue};

    ghost Value = { List TeamValue };

    ghost view = { λ crew. crew.teams.items };
}

impl Team {
    // Starts one more worker of the team.
    fn start_worker<S, G, R>(
        &mut self,
        rt: &R,
        network: &Arc<Network<Message<S>>>,
        gate: &Arc<G>,
        inbox: &Inbox<Message<S>>,
    ) -> Result<(), StartFault>
    where
        S: Service + 'static,
        S::Request: 'static,
        S::Reply: 'static,
        G: Gate + Send + Sync + Drop + 'static,
        R: Threads + Wait + Clone + Send + Drop + 'static,
        ensures fault { IfErr result (λ fault. fault ≢ StartFault.TooManyWorkers) }
        ensures started { OnOk result (self.new ≡ team_with self.old 1) }
    {
        let Ok(theirs) = rt.clone() else {
            return Err(StartFault::NoMemory);
        };
        let network = Arc::try_clone(network)?;
        let gate = Arc::try_clone(gate)?;
        let inbox = inbox.shared()?;
        self.threads.reserve(1)?;
        match thread::spawn(rt, move || work(&theirs, &inbox, &*network, &*gate)) {
            Ok(thread) => {
                self.threads.push_reserved(thread);
                Ok(())
            }
            Err(_) => Err(StartFault::NoThread),
        }
    }

    // Starts so many workers of the team.
    fn start<S, G, R>(
        &mut self,
        rt: &R,
        network: &Arc<Network<Message<S>>>,
        gate: &Arc<G>,
        inbox: &Inbox<Message<S>>,
        workers: u32,
    ) -> Result<(), StartFault>
    where
        S: Service + 'static,
        S::Request: 'static,
        S::Reply: 'static,
        G: Gate + Send + Sync + Drop + 'static,
        R: Threads + Wait + Clone + Send + Drop + 'static,
        ensures fault { IfErr result (λ fault. fault ≢ StartFault.TooManyWorkers) }
        ensures started { OnOk result (self.new ≡ team_with self.old workers) }
    {
        for _ in 0..workers {
            self.start_worker(rt, network, gate, inbox)?;
        }
        Ok(())
    }

    // Tells as many workers to stop as the team has.
    fn tell_to_stop<M: Drop, R: Wait>(&self, rt: &R, network: &Network<M>) {
        for _ in 0..self.threads.len() {
            network.tell_to_stop(rt, self.server);
        }
    }

    // Joins the team's workers.
    fn join<R: Threads + Wait>(self, rt: &R) {
        for thread in self.threads {
            thread.join(rt);
        }
    }
}

impl Crew {
    /// Returns an empty crew.
    pub(crate) fn new(alloc: Global) -> Crew
        ensures { result ≡ [] }
    {
        Crew {
            teams: Vec::new(alloc),
        }
    }

    /// Starts so many workers for each inbox. If a thread or memory is refused, those that were started go on.
    pub(crate) fn start<S, G, R>(
        &mut self,
        rt: &R,
        alloc: Global,
        network: &Arc<Network<Message<S>>>,
        gate: G,
        inboxes: &[Inbox<Message<S>>],
        workers: u32,
    ) -> Result<(), StartFault>
    where
        S: Service + 'static,
        S::Request: 'static,
        S::Reply: 'static,
        G: Gate + Send + Sync + Drop + 'static,
        R: Threads + Wait + Clone + Send + Drop + 'static,
        ensures fault { IfErr result (λ fault. fault ≢ StartFault.TooManyWorkers) }
        ensures started { OnOk result
            (self.new ≡ self.old ++ teams_of workers (map (λ inbox. inbox.server) inboxes.now)) }
    {
        let Ok(gate) = Arc::new(alloc, gate) else {
            return Err(StartFault::NoMemory);
        };
        for inbox in inboxes {
            self.start_team(rt, alloc, network, &gate, inbox, workers)?;
        }
        Ok(())
    }

    // Starts this many workers for the inbox. If a thread or memory is refused, those that were started go on.
    fn start_team<S, G, R>(
        &mut self,
        rt: &R,
        alloc: Global,
        network: &Arc<Network<Message<S>>>,
        gate: &Arc<G>,
        inbox: &Inbox<Message<S>>,
        workers: u32,
    ) -> Result<(), StartFault>
    where
        S: Service + 'static,
        S::Request: 'static,
        S::Reply: 'static,
        G: Gate + Send + Sync + Drop + 'static,
        R: Threads + Wait + Clone + Send + Drop + 'static,
        ensures fault { IfErr result (λ fault. fault ≢ StartFault.TooManyWorkers) }
        ensures started { OnOk result (self.new ≡ self.old ++ teams_of workers (inbox.now.server ∷ [])) }
    {
        self.teams.reserve(1)?;
        let mut team = Team {
            server: inbox.server,
            threads: Vec::new(alloc),
        };
        let started = team.start(rt, network, gate, inbox, workers);
        self.teams.push_reserved(team);
        started
    }

    /// Shuts all doors, and stops and joins the workers.
    pub(crate) fn stop<M: Drop, R: Threads + Wait>(self, rt: &R, network: &Network<M>) {
        network.shut();
        let Crew { teams } = self;
        for team in teams {
            team.tell_to_stop(rt, network);
            team.join(rt);
        }
    }
}
