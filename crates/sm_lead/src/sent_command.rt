ghost use Rattle.std.specs.Prelude.{◌≡◌, ℕ, None, IfSome, IsTrue};
ghost use Rattle.sm_lead.specs.Commands.{IsAfter, absent_of, command_fault, may_name, reads_after, runs_after};

use crate::command_sending::CommandSending;
use crate::command_write::CommandWrite;
use crate::record_read::RecordRead;
use crate::store_control::{StoreControl, place_of};
use sm_desk::{Command, CommandFault, Desk};
use sm_store::server_run::ServerRun;

/// The outcome of a command that was sent.
#[derive(Clone, Copy, PartialEq, Eq, Drop)]
pub enum SendOutcome {
    /// Its transaction was made, at this revision.
    Made(u64),
    /// One of its compares didn't hold.
    Lost,
    /// No answer came: it may have been made, or may still be.
    Unknown,
}

/// A command that was sent, by the control that did so.
#[derive(Drop)]
pub struct SentCommand {
    pub control: StoreControl,
    pub command: Command,
    pub write: CommandWrite,
    ghost allowed: { command_fault control command ≡ None },
    ghost named: { IsTrue (may_name control write) },
}

/// A control's judgement of a command.
#[derive(Drop)]
pub enum Judged {
    /// It must be sent.
    Sent(SentCommand),
    /// It is refused.
    Refused(StoreControl, CommandFault),
}

impl SentCommand {
    /// Returns the transaction to send.
    pub fn sending(&self) -> CommandSending
        ensures process { result.process ≡ self.now.control.lead.process }
        ensures elected { result.elected ≡ self.now.control.lead.elected }
        ensures placed { result.placed ≡ self.now.control.placed }
        ensures absent { result.absent ≡ absent_of self.now.write }
        ensures write { result.write ≡ self.now.write }
    {
        CommandSending {
            process: self.control.lead.process,
            elected: self.control.lead.elected,
            placed: self.control.placed,
            absent: self.write.absent(),
            write: self.write,
        }
    }

    /// Returns the control once the outcome is known: if the command was made, the control after it; nothing if it
    /// wasn't made or may not have been. Then everything must be read again, and the command must be decided again.
    pub fn outcome(self, outcome: SendOutcome) -> Option<StoreControl>
        ensures made { (revision : ℕ) → outcome ≡ SendOutcome.Made revision
            → IfSome result (λ new. IsAfter self.control self.command self.write revision new) }
        ensures lost { outcome ≡ SendOutcome.Lost → result ≡ None }
        ensures unknown { outcome ≡ SendOutcome.Unknown → result ≡ None }
    {
        match outcome {
            SendOutcome::Made(revision) => Some(self.made(revision)),
            SendOutcome::Lost | SendOutcome::Unknown => None,
        }
    }

    /// Returns the control as its command leaves it, which was made at this revision.
    pub fn made(self, revision: u64) -> StoreControl
        ensures { IsAfter self.control self.command self.write revision result }
    {
        let SentCommand {
            control,
            command,
            write,
        } = self;
        let StoreControl {
            mut desk,
            mut records,
            mut runs,
            ceiling,
            waits,
            lead,
            ..
        } = control;
        note_run(&mut runs, &desk, &write);
        desk.commit(command);
        note(&mut records, &write, revision);
        StoreControl {
            desk,
            records,
            runs,
            ceiling,
            waits,
            lead,
            placed: revision,
        }
    }
}

// Notes the write at this revision.
fn note(records: &mut Vec<RecordRead>, write: &CommandWrite, revision: u64)
    ensures { records.new.items ≡ reads_after records.old.items write.now revision }
{
    if let CommandWrite::Record { shard, next, .. } = write {
        let at = shard.index();
        if at < records.len() {
            records[at] = RecordRead {
                state: *next,
                stood: revision,
            };
        }
    }
}

// Notes the server's state that was written, and the process that it names.
fn note_run(runs: &mut Vec<ServerRun>, desk: &Desk, write: &CommandWrite)
    ensures { runs.new.items ≡ runs_after desk.now runs.old.items write.now }
{
    if let CommandWrite::State { server, run } = write {
        let at = place_of(desk, *server);
        if at < runs.len() {
            runs[at] = *run;
        }
    }
}
