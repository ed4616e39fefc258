//! The keys of controls: processes, and states of servers.

ghost use Rattle.std.specs.Prelude.{◌≡◌, ◌<◌, ◌^◌, IfOk, Ok};
ghost use Rattle.sm_codec.specs.declared.stored_state.StoredState.{StoredState as StateValue};
ghost use Rattle.sm_codec.specs.Reading.{Decodes, named_state_in, nameless_state_in, state_in, triple_in};
ghost use Rattle.sm_codec.specs.Spelling.{SpellsState, nameless_state_bytes, process_bytes, state_bytes};
ghost use Rattle.sm_codec.specs.Spelling.{state_number};
ghost use Rattle.sm_codec.specs.Reading.{state_named};

use crate::fault::{Fault, ReadError};
use crate::fields::u64_at;
use crate::reading::pair_of;
use crate::stored_state::StoredState;
use sm_place::ServerState;
use sm_store::server_run::ServerRun;
use std::alloc::{AllocError, Global};

/// Returns the bytes of a process: of the leader, or of the process that made the latest command.
pub fn write_process(alloc: Global, process: u64) -> Result<Vec<u8>, AllocError>
    ensures { IfOk result (λ bytes. bytes.items ≡ process_bytes process) }
{
    let mut out = Vec::new(alloc);
    out.push(1)?;
    out.extend_from_slice(&process.to_be_bytes())?;
    Ok(out)
}

// The number of a server's state.
fn state_number(state: ServerState) -> u64
    ensures { result ≡ state_number state }
{
    match state {
        ServerState::Up => 0,
        ServerState::Asked => 1,
        ServerState::Approved => 2,
        ServerState::Stopped => 3,
        ServerState::Failed => 4,
    }
}

// The state of this number, if there is one.
fn state_named(number: u64) -> Option<ServerState>
    ensures { result ≡ state_named number }
{
    match number {
        0 => Some(ServerState::Up),
        1 => Some(ServerState::Asked),
        2 => Some(ServerState::Approved),
        3 => Some(ServerState::Stopped),
        4 => Some(ServerState::Failed),
        _ => None,
    }
}

/// Returns the bytes of a server's state and the process that it names, and of the process whose command led to it.
pub fn write_state(alloc: Global, stored: &StoredState) -> Result<Vec<u8>, AllocError>
    ensures { IfOk result (λ bytes. bytes.items ≡ state_bytes stored.now) }
{
    let mut out = Vec::new(alloc);
    out.push(2)?;
    out.extend_from_slice(&state_number(stored.run.state).to_be_bytes())?;
    out.extend_from_slice(&stored.process.to_be_bytes())?;
    out.extend_from_slice(&stored.run.process.to_be_bytes())?;
    Ok(out)
}

// Three numbers, which are all of the bytes.
#[tactic(auto, unfolding(crate::specs::Reading::triple_in))]
fn triple_of(bytes: &[u8]) -> Result<(u64, u64, u64), ReadError>
    ensures { Decodes (λ triple. triple) result (triple_in bytes.now) }
{
    let (first, rest) = u64_at(bytes)?;
    let (second, rest) = u64_at(rest)?;
    let (third, rest) = u64_at(rest)?;
    if !rest.is_empty() {
        return Err(ReadError::Fault(Fault::Trailing));
    }
    Ok((first, second, third))
}

// The state behind its version.
#[tactic(auto, unfolding(crate::specs::Reading::named_state_in))]
fn named_state_of(bytes: &[u8]) -> Result<StoredState, ReadError>
    ensures { Decodes (λ stored. stored) result (named_state_in bytes.now) }
{
    let (number, process, named) = triple_of(bytes)?;
    match state_named(number) {
        Some(state) => Ok(StoredState {
            run: ServerRun {
                state,
                process: named,
            },
            process,
        }),
        None => Err(ReadError::Fault(Fault::State)),
    }
}

// The state that names no process of the server.
#[tactic(auto, unfolding(crate::specs::Reading::nameless_state_in))]
fn nameless_state_of(bytes: &[u8]) -> Result<StoredState, ReadError>
    ensures { Decodes (λ stored. stored) result (nameless_state_in bytes.now) }
{
    let (number, process) = pair_of(bytes)?;
    match state_named(number) {
        Some(state) => Ok(StoredState {
            run: ServerRun { state, process: 0 },
            process,
        }),
        None => Err(ReadError::Fault(Fault::State)),
    }
}

#[tactic(auto, unfolding(crate::specs::Reading::state_in))]
fn stored_state_of(bytes: &[u8]) -> Result<StoredState, ReadError>
    ensures { Decodes (λ stored. stored) result (state_in bytes.now) }
{
    match bytes {
        [] => Err(ReadError::Fault(Fault::Short)),
        [2, rest @ ..] => named_state_of(rest),
        [_, ..] => nameless_state_of(bytes),
    }
}

/// Returns the state that the bytes spell, all of the bytes, with the process that it names, and the process whose
/// command led to it. A state of version 1 names no process.
pub fn read_state(bytes: &[u8]) -> Result<StoredState, ReadError>
    ensures found { IfOk result (SpellsState bytes.now) }
    ensures only { (stored : StateValue) → stored.process < 2 ^ 64 → stored.run.process < 2 ^ 64
        → bytes.now ≡ state_bytes stored → Decodes (λ found. found) result (Ok stored) }
    ensures nameless { (stored : StateValue) → stored.process < 2 ^ 64 → stored.run.process ≡ 0
        → bytes.now ≡ nameless_state_bytes stored → Decodes (λ found. found) result (Ok stored) }
    ensures exact { Decodes (λ stored. stored) result (state_in bytes.now) }
{
    stored_state_of(bytes)
}
