use crate::cluster_backend::ClusterBackend;
use crate::counts_listener::CountsListener;
use sm_cluster::Counts;
use sm_lines::{BeginFault, Engine, read_settings};
use sm_session::Session;
use sm_settings::settings::Settings;
use std::alloc::Global;
use std::marker::PhantomData;
use std::sync::Wait;
use std::thread::Threads;

/// Runs scripts on clusters, one command at a time, in the sessions that a closure starts. The maker of that closure
/// knows that its runtime may start threads; a method of an engine of any runtime doesn't know it. If there is a
/// listener, it is told the counts of each session's cluster.
#[derive(Drop)]
pub(crate) struct ThreadEngine<R, F, L> {
    begin: F,
    listener: Option<L>,
    runtime: PhantomData<R>,
}

/// The listener of an engine that tells nobody.
#[derive(Drop)]
pub(crate) struct Nobody;

impl CountsListener for Nobody {
    fn hear_counts(&self, _counts: &Counts) {}
}

impl<R, F, L> ThreadEngine<R, F, L> {
    /// Returns an engine whose sessions this closure starts.
    pub(crate) fn new(begin: F, listener: Option<L>) -> ThreadEngine<R, F, L> {
        ThreadEngine {
            begin,
            listener,
            runtime: PhantomData,
        }
    }
}

impl<
    R: Threads + Wait + Sync + Drop,
    F: FnMut(Settings) -> Result<Session<ClusterBackend<R>>, BeginFault>,
    L: CountsListener + Drop,
> Engine for ThreadEngine<R, F, L> {
    ghost use Rattle.std.specs.Thread.{IsSync};
    ghost use Rattle.sm_script.specs.declared.line.TheConstants.{MAX_LINE as LINE_LIMIT};
    ghost use Rattle.sm_settings.specs.SettingsLine.{values_of};
    ghost use Rattle.sm_settings.specs.SettingsRules.{KeepsRules};
    ghost use Rattle.sm_lines.specs.Openings.{BeginsLine, RefusesLine};
    ghost use Rattle.sm_threads.specs.Beginning.{BeginsSessions};
    ghost use Rattle.sm_threads.specs.Sessions.{IsBegun, MayRefuse};

    type Session = Session<ClusterBackend<R>>;

    const MAX_LINE: usize = sm_script::MAX_LINE;

    ghost MAX_LINE = { LINE_LIMIT };

    // The session's runtime may be shared with other threads, and the closure starts the sessions of settings.
    ghost ready = { λ _. IsSync R.row × BeginsSessions (λ settings. KeepsRules (values_of settings)) F.pre F.step
        (λ settings. IsBegun (values_of settings)) (λ settings. MayRefuse (values_of settings)) };

    ghost begins = { BeginsLine IsBegun };

    ghost refuses = { RefusesLine MayRefuse };

    fn begin(
        &mut self,
        alloc: Global,
        first: &[u8],
    ) -> Result<Session<ClusterBackend<R>>, BeginFault> {
        match read_settings(alloc, first) {
            Ok(settings) => (self.begin)(settings),
            Err(fault) => Err(fault),
        }
    }

    fn end(&mut self, session: Session<ClusterBackend<R>>) {
        if let Some(listener) = &self.listener {
            session.backend().tell_counts(listener);
        }
        session.into_backend().stop();
    }
}
