//! How a control is made from readings: the desk makes the commands that lead to them.

ghost use Rattle.std.specs.Prelude.{IfOk, IsTrue};
ghost use Rattle.sm_lead.specs.Controls.{AreStandsRead, AreStatesRead, IsLoaded};
ghost use Rattle.sm_lead.specs.Placements.{HasRowsOf};

use crate::leadership::Leadership;
use crate::load_fault::LoadFault;
use crate::record_read::RecordRead;
use crate::store_control::StoreControl;
use sm_desk::{Command, CommandFault, Desk};
use sm_ownership::change::Change;
use sm_ownership::change_fault::ChangeFault;
use sm_place::{ServerState, Shard};
use sm_ranges::limits::MAX_SHARD;
use sm_ranges::server_id::ServerId;
use sm_ranges::shard_id::ShardId;
use sm_ranges::stand::Stand;
use sm_store::server_run::ServerRun;

impl StoreControl {
    /// Returns the control of the readings at one revision: from a desk of the settings on which nothing has happened,
    /// the record of each shard by number, and the state of each server in the order of the rows. The desk makes the
    /// commands that lead there, as those of a store do, and is compared. `waits` says whether commands wait for acks.
    pub fn read(
        desk: Desk,
        lead: Leadership,
        ceiling: u64,
        waits: bool,
        records: Vec<RecordRead>,
        runs: Vec<ServerRun>,
        placed: u64,
    ) -> Result<StoreControl, LoadFault>
        ensures { IfOk result (λ control. IsLoaded desk lead ceiling waits records.items runs.items placed control) }
    {
        let desk = stand_all(desk, &records)?;
        let desk = enter_all(desk, &runs, false)?;
        let desk = enter_all(desk, &runs, true)?;
        if !are_stands_read(desk.books().shards(), &records)
            || !are_states_read(desk.books().states(), &runs)
        {
            return Err(LoadFault::Different);
        }
        Ok(StoreControl {
            desk,
            records,
            runs,
            ceiling,
            waits,
            lead,
            placed,
        })
    }
}

// The desk after the command, or why that is refused.
fn make(desk: Desk, command: Command) -> Result<Desk, CommandFault>
    ensures { IfOk result (λ new. HasRowsOf desk new) }
{
    let mut desk = desk;
    match desk.check(&command) {
        Ok(()) => {
            desk.commit(command);
            Ok(desk)
        }
        Err(fault) => Err(fault),
    }
}

// Makes the changes of the shard, one after the other.
fn change_all(desk: Desk, k: ShardId, changes: &[Change]) -> Result<Desk, CommandFault>
    ensures { IfOk result (λ new. HasRowsOf desk new) }
{
    let mut after = desk;
    for change in changes {
        after = make(after, Command::Change(k, *change))?;
    }
    Ok(after)
}

// Makes the changes that lead a vacant shard to this stand.
fn stand(desk: Desk, k: ShardId, stand: &Stand) -> Result<Desk, CommandFault>
    ensures { IfOk result (λ new. HasRowsOf desk new) }
{
    match *stand {
        Stand::Vacant => Ok(desk),
        Stand::Serving(owner) => change_all(desk, k, &[Change::Assign(owner)]),
        Stand::Paused(owner) => change_all(desk, k, &[Change::Assign(owner), Change::Pause]),
        Stand::Prepared { owner, next } => change_all(
            desk,
            k,
            &[Change::Assign(owner), Change::PrepareAddShard(next)],
        ),
        Stand::Forwarding { owner, next } => change_all(
            desk,
            k,
            &[
                Change::Assign(owner),
                Change::PrepareAddShard(next),
                Change::PrepareDropShard,
            ],
        ),
        Stand::Taken { owner, previous } => change_all(
            desk,
            k,
            &[
                Change::Assign(previous),
                Change::PrepareAddShard(owner),
                Change::PrepareDropShard,
                Change::AddShard,
            ],
        ),
    }
}

// Returns the shard with the number, if it is one.
fn shard_id(number: usize) -> Option<ShardId> {
    if number <= usize::from(MAX_SHARD) {
        ShardId::new(number as u16)
    } else {
        None
    }
}

// Leads each shard to the stand that was read.
fn stand_all(desk: Desk, records: &[RecordRead]) -> Result<Desk, CommandFault>
    ensures { IfOk result (λ new. HasRowsOf desk new) }
{
    let mut after = desk;
    for (number, read) in records.iter().enumerate() {
        let Some(k) = shard_id(number) else {
            return Err(CommandFault::Change(ChangeFault::UnknownShard));
        };
        after = stand(after, k, &read.state.stand)?;
    }
    Ok(after)
}

// Leads the server to the state that was read.
fn enter(desk: Desk, server: ServerId, state: ServerState) -> Result<Desk, CommandFault>
    ensures { IfOk result (λ new. HasRowsOf desk new) }
{
    match state {
        ServerState::Up => Ok(desk),
        ServerState::Asked => make(desk, Command::Ask(server)),
        ServerState::Approved => approve(desk, server),
        ServerState::Stopped => stop(desk, server),
        ServerState::Failed => make(desk, Command::Fail(server)),
    }
}

// Asks for a restart of the server, and approves it.
fn approve(desk: Desk, server: ServerId) -> Result<Desk, CommandFault>
    ensures { IfOk result (λ new. HasRowsOf desk new) }
{
    let asked = make(desk, Command::Ask(server))?;
    make(asked, Command::Approve(server))
}

// Does that, and notes that the server was stopped.
fn stop(desk: Desk, server: ServerId) -> Result<Desk, CommandFault>
    ensures { IfOk result (λ new. HasRowsOf desk new) }
{
    let approved = approve(desk, server)?;
    make(approved, Command::Stopped(server))
}

// Returns the server of a row, if there are so many.
fn server_at(desk: &Desk, place: usize) -> Option<ServerId> {
    desk.books().rows().get(place).map(|row| row.id)
}

// Leads the servers to their states: those that failed, once the others are there, as approvals count them.
fn enter_all(desk: Desk, runs: &[ServerRun], failed: bool) -> Result<Desk, CommandFault>
    ensures { IfOk result (λ new. HasRowsOf desk new) }
{
    let mut after = desk;
    for (place, run) in runs.iter().enumerate() {
        after = enter_at(after, place, run.state, failed)?;
    }
    Ok(after)
}

// Leads the server of a row to its state, if that is failed or not as is asked for.
fn enter_at(
    desk: Desk,
    place: usize,
    state: ServerState,
    failed: bool,
) -> Result<Desk, CommandFault>
    ensures { IfOk result (λ new. HasRowsOf desk new) }
{
    if matches!(state, ServerState::Failed) != failed {
        return Ok(desk);
    }
    match server_at(&desk, place) {
        Some(server) => enter(desk, server, state),
        None => Err(CommandFault::UnknownServer),
    }
}

// Returns whether there are as many shards as records, with the stands in these.
fn are_stands_read(shards: &[Shard], reads: &[RecordRead]) -> bool
    ensures { IsTrue result → AreStandsRead shards.now reads.now }
{
    if shards.len() != reads.len() {
        return false;
    }
    for k in 0..reads.len() {
        if shards[k].stand != reads[k].state.stand {
            return false;
        }
    }
    true
}

// Whether the states are those that were read.
fn are_states_read(states: &[ServerState], reads: &[ServerRun]) -> bool
    ensures { IsTrue result → AreStatesRead states.now reads.now }
{
    if states.len() != reads.len() {
        return false;
    }
    for i in 0..reads.len() {
        if states[i] != reads[i].state {
            return false;
        }
    }
    true
}
