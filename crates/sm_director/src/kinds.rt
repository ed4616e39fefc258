//! The numbers by which C names commands and states.
ghost use Rattle.std.specs.Prelude.{◌≡◌, IfSome, unwrap_or};
ghost use Rattle.sm_codec.specs.Spelling.{state_number};
ghost use Rattle.sm_ownership.specs.Rules.{newly_named};
ghost use Rattle.sm_director.specs.Kinds.{change_kind, command_parts, step_parts};

use crate::step_parts::StepParts;
use sm_desk::Command;
use sm_lead::NextStep;
use sm_ownership::change::Change;
use sm_place::ServerState;
use sm_ranges::server_id::ServerId;
use sm_ranges::shard_id::ShardId;

/// Returns the command of these parts, if there is one.
pub(crate) fn command_of(parts: &StepParts) -> Option<Command>
    ensures { IfSome result (λ command. command_parts command ≡ parts.now) }
{
    match named(parts) {
        Some(command) => if command_parts(&command) == *parts {
            Some(command)
        } else {
            None
        },
        None => None,
    }
}

// The command of this kind, with the shard and the server that it names.
fn named(parts: &StepParts) -> Option<Command> {
    match parts.kind {
        1..=9 => {
            let shard = ShardId::new(parts.shard)?;
            Some(Command::Change(shard, change_of(parts)?))
        }
        10 => Some(Command::Ask(ServerId::new(parts.server)?)),
        11 => Some(Command::Approve(ServerId::new(parts.server)?)),
        12 => Some(Command::Stopped(ServerId::new(parts.server)?)),
        13 => Some(Command::Back(ServerId::new(parts.server)?)),
        14 => Some(Command::Fail(ServerId::new(parts.server)?)),
        _ => None,
    }
}

// The change of this kind, with the server that it names.
fn change_of(parts: &StepParts) -> Option<Change> {
    match parts.kind {
        1 => Some(Change::Assign(ServerId::new(parts.server)?)),
        2 => Some(Change::PrepareAddShard(ServerId::new(parts.server)?)),
        3 => Some(Change::PrepareDropShard),
        4 => Some(Change::AddShard),
        5 => Some(Change::DropShard),
        6 => Some(Change::Cancel),
        7 => Some(Change::Pause),
        8 => Some(Change::Resume),
        9 => Some(Change::Reassign(ServerId::new(parts.server)?)),
        _ => None,
    }
}

/// Returns the parts of the next step.
pub(crate) fn parts_of(step: &NextStep) -> StepParts
    ensures { result ≡ step_parts step.now }
{
    match step {
        NextStep::Nothing => parts(0, 0, 0),
        NextStep::Takes(command) => command_parts(command),
        NextStep::Waits => parts(0, 0, 15),
    }
}

fn command_parts(command: &Command) -> StepParts
    ensures { result ≡ command_parts command.now }
{
    match command {
        Command::Change(shard, change) => parts(shard.number(), server_of(change), kind_of(change)),
        Command::Ask(server) => parts(0, server.number(), 10),
        Command::Approve(server) => parts(0, server.number(), 11),
        Command::Stopped(server) => parts(0, server.number(), 12),
        Command::Back(server) => parts(0, server.number(), 13),
        Command::Fail(server) => parts(0, server.number(), 14),
    }
}

fn parts(shard: u16, server: u16, kind: u8) -> StepParts
    ensures { result ≡ record { shard = shard; server = server; kind = kind } }
{
    StepParts {
        shard,
        server,
        kind,
    }
}

// The number of the server that the change newly names, or 0.
fn server_of(change: &Change) -> u16
    ensures { result ≡ unwrap_or (newly_named change.now) 0 }
{
    match change {
        Change::Assign(server) | Change::PrepareAddShard(server) | Change::Reassign(server) => {
            server.number()
        }
        _ => 0,
    }
}

fn kind_of(change: &Change) -> u8
    ensures { result ≡ change_kind change.now }
{
    match change {
        Change::Assign(_) => 1,
        Change::PrepareAddShard(_) => 2,
        Change::PrepareDropShard => 3,
        Change::AddShard => 4,
        Change::DropShard => 5,
        Change::Cancel => 6,
        Change::Pause => 7,
        Change::Resume => 8,
        Change::Reassign(_) => 9,
    }
}

/// Returns the number of a server's state.
pub(crate) fn state_number(state: ServerState) -> u8
    ensures { result ≡ state_number state }
{
    match state {
        ServerState::Up => 0,
        ServerState::Asked => 1,
        ServerState::Approved => 2,
        ServerState::Stopped => 3,
        ServerState::Failed => 4,
    }
}

/// Returns the number of the server, or 0.
pub(crate) fn number_of(server: Option<ServerId>) -> u16
    ensures { result ≡ unwrap_or server 0 }
{
    match server {
        Some(server) => server.number(),
        None => 0,
    }
}
