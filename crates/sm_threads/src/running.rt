ghost use Rattle.std.specs.Prelude.{◌≡◌, IfErr, IfOk, Ok};
ghost use Rattle.sm_lines.specs.Writing.{Wrote};
ghost use Rattle.sm_lines.specs.Openings.{RefusedScript, RefusesLine};
ghost use Rattle.sm_lines.specs.Runs.{RanScript, StoppedEarly};
ghost use Rattle.sm_lines.specs.Watching.{KeepsWatch};
ghost use Rattle.sm_settings.specs.SettingsLine.{values_of};
ghost use Rattle.sm_settings.specs.SettingsRules.{KeepsRules};
ghost use Rattle.sm_threads.specs.Runs.{WritesAnswers};
ghost use Rattle.sm_threads.specs.Sessions.{IsBegun, MayRefuse};

use crate::cluster_backend::ClusterBackend;
use crate::counts_listener::CountsListener;
use crate::engine::{Nobody, ThreadEngine};
use sm_cluster::Gate;
use sm_explain::{Explained, Listener};
use sm_lines::{BeginFault, Dialogue, RunFault, Status, run};
use sm_session::Session;
use sm_settings::settings::Settings;
use std::alloc::Global;
use std::io::{Read, Write};
use std::sync::Wait;
use std::thread::Threads;

/// Runs the script of the dialogue's reader on a cluster, one command at a time, and writes its answers. Each server
/// has as many workers as the settings say, and each of them passes a clone of the gate before it serves a request. The
/// cluster is stopped at the end. The statements about bytes hold for a reader and a writer that tell theirs.
///
/// It may wait for the cluster's threads. `Read` comes only if the reader failed, or 2^32 of its calls or lines were
/// counted; `Write` only if the writer failed; `NoMemory` and `NoThread` only if neither failed. The answers to all
/// lines before the one at which a fault came were written, and nothing else, except for a front of that line's answer
/// if writing failed. `NoThread` comes only if no cluster could be started because of it, before any answer.
pub fn run_threads<
    I: Read + Drop,
    W: Write + Drop,
    R: Threads + Wait + Clone + Send + Sync + Drop + 'static,
    G: Gate + Clone + Send + Sync + Drop + 'static,
>(rt: &R, alloc: Global, dialogue: &mut Dialogue<I, W>, gate: &G) -> Result<Status, RunFault>
    // The output is answers that the cluster may give, one after another, and nothing else.
    ensures ran { result ≡ Ok Status.Ran → RanScript WritesAnswers dialogue.old dialogue.new }
    ensures bad_settings { result ≡ Ok Status.BadSettings → RefusedScript (RefusesLine MayRefuse) Wrote
        dialogue.old dialogue.new }
    // Exactly the answers to all lines before the one at which a fault came were written, but for a front of that
    // line's.
    ensures stopped { StoppedEarly (RefusesLine MayRefuse) WritesAnswers result dialogue.old dialogue.new }
    ensures watched { KeepsWatch result dialogue.old dialogue.new }
{
    let begin = |settings: Settings| -> Result<Session<ClusterBackend<R>>, BeginFault>
        requires { KeepsRules (values_of settings) }
        ensures begun { IfOk result (IsBegun (values_of settings)) }
        ensures refused { IfErr result (MayRefuse (values_of settings)) }
    { begin_with(rt, alloc, settings, gate) };
    let mut plain = ThreadEngine::new(begin, None::<Nobody>);
    run(alloc, dialogue, &mut plain)
}

/// Does the same. Tells one listener why lines were refused, and the other one the cluster's counts, if it was started.
pub fn run_threads_explained<
    I: Read + Drop,
    W: Write + Drop,
    R: Threads + Wait + Clone + Send + Sync + Drop + 'static,
    G: Gate + Clone + Send + Sync + Drop + 'static,
    L: Listener + Copy + Drop,
    C: CountsListener + Drop,
>(
    rt: &R,
    alloc: Global,
    dialogue: &mut Dialogue<I, W>,
    gate: &G,
    listener: L,
    counts_listener: C,
) -> Result<Status, RunFault>
    ensures ran { result ≡ Ok Status.Ran → RanScript WritesAnswers dialogue.old dialogue.new }
    ensures bad_settings { result ≡ Ok Status.BadSettings → RefusedScript (RefusesLine MayRefuse) Wrote
        dialogue.old dialogue.new }
    ensures stopped { StoppedEarly (RefusesLine MayRefuse) WritesAnswers result dialogue.old dialogue.new }
    ensures watched { KeepsWatch result dialogue.old dialogue.new }
{
    let begin = |settings: Settings| -> Result<Session<ClusterBackend<R>>, BeginFault>
        requires { KeepsRules (values_of settings) }
        ensures begun { IfOk result (IsBegun (values_of settings)) }
        ensures refused { IfErr result (MayRefuse (values_of settings)) }
    { begin_with(rt, alloc, settings, gate) };
    let mut engine = Explained::new(ThreadEngine::new(begin, Some(counts_listener)), listener);
    run(alloc, dialogue, &mut engine)
}

/// Returns a session on a cluster with a clone of the gate, or why there is none.
fn begin_with<
    R: Threads + Wait + Clone + Send + Drop + 'static,
    G: Gate + Clone + Send + Sync + Drop + 'static,
>(
    rt: &R,
    alloc: Global,
    settings: Settings,
    gate: &G,
) -> Result<Session<ClusterBackend<R>>, BeginFault>
    requires { KeepsRules (values_of settings) }
    ensures begun { IfOk result (IsBegun (values_of settings)) }
    ensures refused { IfErr result (MayRefuse (values_of settings)) }
{
    let gate = gate.clone()?;
    match ClusterBackend::start(rt, alloc, settings, gate) {
        Ok(backend) => Ok(Session::new(alloc, backend)),
        Err(fault) => Err(fault),
    }
}
