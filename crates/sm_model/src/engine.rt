ghost use Rattle.std.specs.Prelude.{◌≡◌, ◌≢◌, OnOk, Ok, Err};
ghost use Rattle.sm_lines.specs.Runs.{StoppedEarly};
ghost use Rattle.sm_lines.specs.Watching.{KeepsWatch};
ghost use Rattle.sm_lines.specs.Openings.{HasNone, RefusesLine};
ghost use Rattle.sm_model.specs.Runs.{AcceptsSettings, RefusesSettings, WritesScript, WroteScript};

use crate::world_backend::WorldBackend;
use sm_explain::{Explained, Listener};
use sm_lines::{BeginFault, Dialogue, Engine, RunFault, Status, read_settings, run};
use sm_session::Session;
use std::alloc::Global;
use std::io::{Read, Write};

/// Runs scripts on a world, on one thread, exactly as the definitions say.
#[derive(Clone, Copy, Drop)]
pub struct ModelEngine {
    alloc: Global,
}

impl ModelEngine {
    /// Returns an engine that takes its memory from this allocator.
    pub fn new(alloc: Global) -> ModelEngine {
        ModelEngine { alloc }
    }
}

impl Engine for ModelEngine {
    ghost use Rattle.sm_script.specs.declared.line.TheConstants.{MAX_LINE as LINE_LIMIT};
    ghost use Rattle.sm_lines.specs.Openings.{BeginsLine, HasNone, RefusesLine};
    ghost use Rattle.sm_model.specs.Sessions.{IsNew};

    type Session = Session<WorldBackend>;

    const MAX_LINE: usize = sm_script::MAX_LINE;

    ghost MAX_LINE = { LINE_LIMIT };

    ghost begins = { BeginsLine IsNew };

    ghost refuses = { RefusesLine HasNone };

    fn begin(&mut self, alloc: Global, first: &[u8]) -> Result<Session<WorldBackend>, BeginFault> {
        let settings = read_settings(alloc, first)?;
        match WorldBackend::new(self.alloc, settings) {
            Ok(backend) => Ok(Session::new(self.alloc, backend)),
            Err(_) => Err(BeginFault::NoMemory),
        }
    }

    fn end(&mut self, _session: Session<WorldBackend>) {}
}

/// Runs the script of the dialogue's reader on the model, and writes its answers. Statements about bytes hold for a
/// reader and a writer whose bytes are known.
///
/// Returns `Read` only if the reader failed, or 2^32 of its calls or lines were counted; `Write` only if the writer
/// failed; `NoMemory` only if neither failed. The answers to all lines before the one at which a fault came were
/// written, and nothing else, but for the first part of that line's answer if writing failed. If memory was refused,
/// all lines before that one were taken off the reader, and at most a piece was read beyond it.
pub fn run_model<R: Read + Drop, W: Write + Drop>(
    alloc: Global,
    dialogue: &mut Dialogue<R, W>,
) -> Result<Status, RunFault>
    // Exactly the script of the input was written.
    ensures wrote { OnOk result (WroteScript dialogue.old dialogue.new) }
    ensures ran { result ≡ Ok Status.Ran → AcceptsSettings dialogue.old }
    ensures bad_settings { result ≡ Ok Status.BadSettings → RefusesSettings dialogue.old }

    // Exactly the script of all lines before the one at which a fault came was written, but for the first part of that
    // line's answer.
    ensures stopped { StoppedEarly (RefusesLine HasNone) WritesScript result dialogue.old dialogue.new }
    ensures no_thread { result ≢ Err RunFault.NoThread }
    ensures watched { KeepsWatch result dialogue.old dialogue.new }
{
    run(alloc, dialogue, &mut ModelEngine::new(alloc))
}

/// The same, and tells the listener why lines were refused.
pub fn run_model_explained<R: Read + Drop, W: Write + Drop, L: Listener + Copy + Drop>(
    alloc: Global,
    dialogue: &mut Dialogue<R, W>,
    listener: L,
) -> Result<Status, RunFault>
    ensures wrote { OnOk result (WroteScript dialogue.old dialogue.new) }
    ensures ran { result ≡ Ok Status.Ran → AcceptsSettings dialogue.old }
    ensures bad_settings { result ≡ Ok Status.BadSettings → RefusesSettings dialogue.old }
    ensures stopped { StoppedEarly (RefusesLine HasNone) WritesScript result dialogue.old dialogue.new }
    ensures no_thread { result ≢ Err RunFault.NoThread }
    ensures watched { KeepsWatch result dialogue.old dialogue.new }
{
    let mut engine = Explained::new(ModelEngine::new(alloc), listener);
    run(alloc, dialogue, &mut engine)
}
