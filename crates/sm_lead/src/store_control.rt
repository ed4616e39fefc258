ghost use Rattle.std.specs.Prelude.{◌≡◌, ◌==◌, IfOk, IsTrue, position};
ghost use Rattle.std.specs.Result.{result_err};
ghost use Rattle.sm_desk.specs.declared.command.Command.TheVariants.{Change as ChangeOf};
ghost use Rattle.sm_lead.specs.Commands.{command_fault, may_name, process_at, record_refusal, run_at, run_into};
ghost use Rattle.sm_lead.specs.Commands.{write_of};
ghost use Rattle.sm_place.specs.Books.{place_of, state_of};
ghost use Rattle.sm_store.specs.Deeds.{is_next_run};
ghost use Rattle.sm_lead.specs.Sendings.{IsJudged};

use crate::command_write::CommandWrite;
use crate::leadership::Leadership;
use crate::record_read::{RecordRead, read_at};
use crate::sent_command::{Judged, SentCommand};
use sm_desk::{Command, CommandFault, Desk};
use sm_ownership::change::Change;
use sm_place::ServerState;
use sm_ranges::server_id::ServerId;
use sm_ranges::shard_id::ShardId;
use sm_store::server_run::ServerRun;

/// A leading control, with all its readings: the desk has each shard's stand and each server's state.
#[derive(Drop)]
pub struct StoreControl {
    pub desk: Desk,
    /// The record of each shard, by number.
    pub records: Vec<RecordRead>,
    /// The state of each server and the process that it names, in the order of the desk's rows.
    pub runs: Vec<ServerRun>,
    /// The greatest generation of a record.
    pub ceiling: u64,
    /// Whether commands wait for acks. They needn't if all servers of the store are in one process.
    pub waits: bool,
    pub lead: Leadership,
    /// The revision at which the key of commands was last written, or 0 if it never was.
    pub placed: u64,
}

impl StoreControl {
    /// Judges the command, if this process runs the server that it names. If the desk and the shard's record allow the
    /// command, it must be sent, and the control knows nothing more until the outcome comes. Otherwise the control
    /// comes back, with the first fault.
    pub fn command(self, process: u64, command: Command) -> Judged
        requires { IsTrue (may_name self (write_of self process command)) }
        ensures { IsJudged self process command result }
    {
        match self.judge(process, &command) {
            Ok(write) => Judged::Sent(SentCommand {
                control: self,
                command,
                write,
            }),
            Err(fault) => Judged::Refused(self, fault),
        }
    }

    /// Returns whether the state after the command may name its process: the one that runs the server, or the one that
    /// its state names if that is later. A server that was stopped is up again only with a process that began later,
    /// and a state that says that a server is stopped must name a process.
    pub fn may_name(&self, process: u64, command: &Command) -> bool
        ensures { result ≡ may_name self.now (write_of self.now process command.now) }
    {
        match command {
            Command::Change(..) => true,
            Command::Ask(server) => self.may_enter(process, *server, ServerState::Asked),
            Command::Approve(server) => self.may_enter(process, *server, ServerState::Approved),
            Command::Stopped(server) => self.may_enter(process, *server, ServerState::Stopped),
            Command::Back(server) => self.may_enter(process, *server, ServerState::Up),
            Command::Fail(server) => self.may_enter(process, *server, ServerState::Failed),
        }
    }

    // Returns whether the server may enter the state, if this process runs it.
    fn may_enter(&self, process: u64, server: ServerId, state: ServerState) -> bool
        ensures { result ≡ is_next_run (run_at self.now server) (run_into self.now process server state) }
    {
        let before = ServerRun {
            state: state_of(&self.desk, server),
            process: self.process_of(server),
        };
        is_next_run(&before, &self.run_into(process, server, state))
    }

    /// Returns the process that the server's state names, or 0 if it names none.
    pub fn process_of(&self, server: ServerId) -> u64
        ensures { result ≡ process_at self.now server }
    {
        match self.runs.get(place_of(&self.desk, server)) {
            Some(run) => run.process,
            None => 0,
        }
    }

    // Returns the server's next state, if this process runs it.
    fn run_into(&self, process: u64, server: ServerId, state: ServerState) -> ServerRun
        ensures { result ≡ run_into self.now process server state }
    {
        let named = self.process_of(server);
        ServerRun {
            state,
            process: if named < process { process } else { named },
        }
    }

    /// Returns the write of the command if this process runs the server that it names, or the first fault that applies:
    /// the desk's, or `Spent` or `Busy` from the shard's record.
    pub fn judge(&self, process: u64, command: &Command) -> Result<CommandWrite, CommandFault>
        ensures fault { result_err result ≡ command_fault self.now command.now }
        ensures write { IfOk result (λ write. write ≡ write_of self.now process command.now) }
    {
        if let Err(fault) = self.desk.check(command) {
            return Err(fault);
        }
        match command {
            Command::Change(shard, change) => self.judge_record(*shard, change),
            Command::Ask(server) => Ok(self.enters(process, *server, ServerState::Asked)),
            Command::Approve(server) => Ok(self.enters(process, *server, ServerState::Approved)),
            Command::Stopped(server) => Ok(self.enters(process, *server, ServerState::Stopped)),
            Command::Back(server) => Ok(self.enters(process, *server, ServerState::Up)),
            Command::Fail(server) => Ok(self.enters(process, *server, ServerState::Failed)),
        }
    }

    // The record that the change leads to, or why the shard's record refuses it.
    fn judge_record(&self, shard: ShardId, change: &Change) -> Result<CommandWrite, CommandFault>
        ensures fault { result_err result ≡ record_refusal self.now (ChangeOf shard change.now) }
        ensures write { IfOk result (λ write. write ≡ write_of self.now 0 (ChangeOf shard change.now)) }
    {
        let read = read_at(&self.records, shard);
        match read.state.changed(*change, self.ceiling) {
            Ok(next) => Ok(CommandWrite::Record {
                shard,
                change: *change,
                next,
            }),
            Err(fault) => Err(CommandFault::Change(fault)),
        }
    }

    // Returns the write of a server's state, if this process runs the server.
    fn enters(&self, process: u64, server: ServerId, state: ServerState) -> CommandWrite
        ensures { result ≡ CommandWrite.State server (run_into self.now process server state) }
    {
        CommandWrite::State {
            server,
            run: self.run_into(process, server, state),
        }
    }
}

/// Returns the state of the server, or Up if there is no such server.
pub(crate) fn state_of(desk: &Desk, server: ServerId) -> ServerState
    ensures { result ≡ state_of desk.now.books server }
{
    desk.soundness();
    if desk.books().knows(server) {
        desk.books().state(server)
    } else {
        ServerState::Up
    }
}

/// Returns the place of the server's row, or how many rows there are.
#[tactic(auto, using(crate::proofs::Places::found, crate::proofs::Places::missed))]
pub(crate) fn place_of(desk: &Desk, server: ServerId) -> usize
    ensures { result ≡ place_of desk.now.books.servers server }
{
    match row_of(desk, server) {
        Some(place) => place,
        None => desk.books().rows().len(),
    }
}

// The place of the server's row, if there is one.
fn row_of(desk: &Desk, server: ServerId) -> Option<usize>
    ensures { result ≡ position (λ row. row.id == server) desk.now.books.servers }
{
    desk.books().rows().iter().position(|row| row.id == server)
}

// Whether a state may be said of the process after the one before.
fn is_next_run(before: &ServerRun, next: &ServerRun) -> bool
    ensures { result ≡ is_next_run before.now next.now }
{
    let is_back = matches!(before.state, ServerState::Stopped)
        && matches!(next.state, ServerState::Up);
    let is_named = next.process > 0 || !matches!(next.state, ServerState::Stopped);
    before.process <= next.process && (!is_back || before.process < next.process) && is_named
}
