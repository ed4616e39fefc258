ghost use Rattle.std.specs.Prelude.{◌≡◌, ◌≢◌, IfOk, OnOk, Ok, Err};
ghost use Rattle.sm_settings.specs.declared.settings_fault.SettingsFault.{SettingsFault as AnyFault};
ghost use Rattle.sm_lines.specs.Answers.{AnsweredInput, AnswersLine};
ghost use Rattle.sm_lines.specs.Writing.{Wrote, WroteShort};
ghost use Rattle.sm_lines.specs.Faults.{status_of};
ghost use Rattle.sm_lines.specs.Openings.{RefusedScript, settings_line};
ghost use Rattle.sm_lines.specs.Runs.{RanScript, StoppedEarly, WritesFor};
ghost use Rattle.sm_lines.specs.Watching.{KeepsWatch};

use crate::begin_fault::BeginFault;
use crate::engine::Engine;
use crate::opening::{Opening, open, refuse};
use crate::{AnswerFault, Dialogue, RunFault, Status, answer_lines};
use std::alloc::Global;
use std::io::{Read, Write};

/// Runs the script of the dialogue's reader on the engine, and writes its answers. Statements about bytes hold for a
/// reader and a writer whose bytes are known.
///
/// Returns `Read` only if the reader failed, or 2^32 of its calls or lines were counted; `Write` only if the writer
/// failed; `NoMemory` and `NoThread` only if neither failed. The answers to all lines before the one at which a fault
/// came were written, and nothing else, but for the first part of that line's answer if writing failed. If memory was
/// refused, all lines before that one were taken off the reader, and at most a piece was read beyond it. `NoThread`
/// comes only if the engine began no session for want of a thread, before any answer.
pub fn run<R: Read + Drop, W: Write + Drop, E: Engine>(
    alloc: Global,
    dialogue: &mut Dialogue<R, W>,
    engine: &mut E,
) -> Result<Status, RunFault>
    requires { E.ready engine.old }
    ensures ran { result ≡ Ok Status.Ran
        → RanScript (WritesFor E.begins (AnswersLine E.Session.gives E.Session.gives_long E.MAX_LINE))
        dialogue.old dialogue.new }
    ensures bad_settings { result ≡ Ok Status.BadSettings → RefusedScript E.refuses Wrote dialogue.old dialogue.new }
    // Exactly the answers to all lines before the one at which a fault came were written, but for a front of that
    // line's.
    ensures stopped { StoppedEarly E.refuses
        (WritesFor E.begins (AnswersLine E.Session.gives E.Session.gives_long E.MAX_LINE)) result
        dialogue.old dialogue.new }
    ensures watched { KeepsWatch result dialogue.old dialogue.new }
    ensures ready { E.ready engine.new }
{
    match open(dialogue) {
        Ok(Opening::Kept) => match engine.begin(alloc, dialogue.line()) {
            Ok(session) => ending(run_session(alloc, dialogue, engine, session)),
            Err(fault) => leave_unbegun(alloc, dialogue, fault),
        },
        Ok(Opening::Refused(fault)) => refuse(alloc, dialogue, fault),
        Err(fault) => Err(fault),
    }
}

/// Answers the lines after the settings by the session, and ends it.
fn run_session<R: Read + Drop, W: Write + Drop, E: Engine>(
    alloc: Global,
    dialogue: &mut Dialogue<R, W>,
    engine: &mut E,
    session: E::Session,
) -> Result<(), AnswerFault>
    requires ready { E.ready engine.old }
    requires session_ready { E.Session.ready session }
    ensures answered { (after : E.Session) × AnsweredInput
        (AnswersLine E.Session.gives E.Session.gives_long E.MAX_LINE) result
        dialogue.old dialogue.new session after }
    ensures read_unfailed { result ≢ Err AnswerFault.Read
        → dialogue.new.reading.failed ≡ dialogue.old.reading.failed }
    ensures write_unfailed { result ≢ Err AnswerFault.Write
        → dialogue.new.writing.failed ≡ dialogue.old.writing.failed }
    ensures ready { E.ready engine.new }
{
    let mut session = session;
    let answered = answer_lines(alloc, dialogue, &mut session, E::MAX_LINE);
    engine.end(session);
    answered
}

/// Returns how a run ended whose lines were answered so.
fn ending(answered: Result<(), AnswerFault>) -> Result<Status, RunFault>
    ensures { result ≡ status_of answered }
{
    match answered {
        Ok(()) => Ok(Status::Ran),
        Err(fault) => Err(RunFault::from(fault)),
    }
}

/// Ends a run for which the engine began no session.
fn leave_unbegun<R: Read + Drop, W: Write + Drop>(
    alloc: Global,
    dialogue: &mut Dialogue<R, W>,
    fault: BeginFault,
) -> Result<Status, RunFault>
    ensures wrote { OnOk result ((why : AnyFault) × (fault ≡ BeginFault.Settings why)
        × Wrote dialogue.old.writing dialogue.new.writing (settings_line why)) }
    ensures status { IfOk result (λ status. status ≡ Status.BadSettings) }
    ensures write { result ≡ Err RunFault.Write → (why : AnyFault) × (fault ≡ BeginFault.Settings why)
        × WroteShort dialogue.old.writing dialogue.new.writing (settings_line why) }
    ensures no_memory { result ≡ Err RunFault.NoMemory → dialogue.new.writing ≡ dialogue.old.writing }
    ensures no_thread { result ≡ Err RunFault.NoThread
        → (fault ≡ BeginFault.NoThread) × (dialogue.new.writing ≡ dialogue.old.writing) }
    ensures read { result ≢ Err RunFault.Read }
    ensures unread { dialogue.new.reading ≡ dialogue.old.reading }
{
    match fault {
        BeginFault::Settings(why) => refuse(alloc, dialogue, why),
        BeginFault::NoMemory => Err(RunFault::NoMemory),
        BeginFault::NoThread => Err(RunFault::NoThread),
    }
}
