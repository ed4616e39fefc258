//! The proved parts for callers in C, C++, Python and Rust. Each call returns 0, or a code of docs/LIBRARY.md, and then
//! it has done only the things in its contract. A handle must begin as bytes of 0. It may pass from thread to thread,
//! and must be used by one call at a time.
#![tactic(auto)]

ghost use Rattle.std.specs.Prelude.{◌≡◌, ◌≢◌, ◌<◌, ◌⊎◌, Some, None, length, unwrap_or};
ghost use Rattle.sm_foreign.specs.Refusals.{OpensNothing};
ghost use Rattle.sm_foreign.specs.declared.open_fault.OpenFault.{OpenFault as OpenFaultValue};
ghost use Rattle.sm_handle.specs.ActFault.{ActFault as ActFaultValue};
ghost use Rattle.sm_ownership.specs.declared.record.Record.{Record as RecordValue};
ghost use Rattle.sm_ownership.specs.Rules.{executor, forward_to};
ghost use Rattle.sm_handle.specs.Acts.{EndsHandle, GivesNoPass, HoldsNothing, IsPassOf, LooksNowhere, TellsWord};
ghost use Rattle.sm_handle.specs.Opening.{IsOpened};
ghost use Rattle.sm_ranges.specs.ServerId.{IsServer};
ghost use Rattle.sm_ranges.specs.declared.limits.TheConstants.{MAX_SERVER, MAX_SHARD};
ghost use Rattle.sm_word.specs.Word.{IsWellFormed, word_of};
ghost use Rattle.sm_c.specs.Calls.{AdmitsFrom, ChangesBoard, LooksAt, RefusesChange, RefusesFrom, RefusesRestart};
ghost use Rattle.sm_c.specs.Calls.{RefusesByWord, Restarts};
ghost use Rattle.sm_c.specs.Codes.{IsCodeOf, open_fault_code};
ghost use Rattle.sm_c.specs.Words.{AcceptsWord, AdmitsWord, ArePartsOf, ChangesWord, EndsWord, ForbidsChange, HasNoEnd};
ghost use Rattle.sm_c.specs.Words.{HasNoRecord, IsNoServer, IsNoWord, PacksParts, RefusesWord};

mod codes;
mod fences;
mod kinds;
mod layouts;
mod maps;
mod notes;
mod opening;
mod plans;
mod read;
mod record_parts;
mod replies;
mod requests;
mod route_parts;
mod routes;
mod sent_parts;
mod services;
mod word_fault;
mod words;

use codes::{
    BAD_ARGUMENT, BAD_WORD, NOT_ADMITTED, UNKNOWN_SHARD, WRONG_HANDLE, code_of_act, code_of_open,
    code_of_pass, code_of_word,
};
use kinds::{change_of, known_server, mode_of, step_of};
use read::{read_of, tell, tell_parts, tell_word};
pub use record_parts::RecordParts;
use record_parts::number;
pub use route_parts::RouteParts;
use sm_desk::Command;
use sm_foreign::Fence;
use sm_handle::Handle;
use sm_ranges::server_id::ServerId;
use sm_ranges::shard_id::ShardId;
use sm_word::word::unpack;
use std::alloc::Global;
use words::{admitted_word, changed_word, ended_word, packed_word};

/// Returns the word after a change of this kind and server.
#[unsafe(no_mangle)]
pub extern "C" fn durkenzo_changed(
    word: u64,
    kind: u8,
    server: u16,
    ceiling: u64,
    next: &mut u64,
) -> u32
    ensures made { result ≡ 0 → ChangesWord word kind server ceiling next.new }
    ensures refused { result ≢ 0 → ForbidsChange word kind server ceiling result }
    ensures kept { result ≢ 0 → next.new ≡ next.old }
{
    let Some(change) = change_of(kind, server) else {
        return BAD_ARGUMENT;
    };
    match changed_word(word, change, ceiling) {
        Ok(made) => {
            *next = made;
            0
        }
        Err(fault) => code_of_word(fault),
    }
}

/// Returns the word after an admission of the server, for a request that came directly (`from` 0) or from that server.
#[unsafe(no_mangle)]
pub extern "C" fn durkenzo_admitted(
    word: u64,
    server: u16,
    from: u16,
    ceiling: u64,
    next: &mut u64,
) -> u32
    ensures made { result ≡ 0 → AdmitsWord word server from ceiling next.new }
    ensures refused { result ≢ 0 → RefusesWord word server from ceiling result }
    ensures kept { result ≢ 0 → next.new ≡ next.old }
{
    let Some(server) = known_server(server) else {
        return BAD_ARGUMENT;
    };
    let Some(mode) = mode_of(from) else {
        return BAD_ARGUMENT;
    };
    match admitted_word(word, server, mode, ceiling) {
        Ok(made) => {
            *next = made;
            0
        }
        Err(fault) => code_of_word(fault),
    }
}

/// Returns the word after the end of its admission.
#[unsafe(no_mangle)]
pub extern "C" fn durkenzo_ended(word: u64, next: &mut u64) -> u32
    ensures made { result ≡ 0 → EndsWord word next.new }
    ensures refused { result ≢ 0 → (result ≡ NOT_ADMITTED) × (IsNoWord word ⊎ HasNoEnd word) }
    ensures kept { result ≢ 0 → next.new ≡ next.old }
{
    match ended_word(word) {
        Some(made) => {
            *next = made;
            0
        }
        None => NOT_ADMITTED,
    }
}

/// Returns the parts of the record that has this word.
#[unsafe(no_mangle)]
pub extern "C" fn durkenzo_unpack(word: u64, parts: &mut RecordParts) -> u32
    ensures made { result ≡ 0
        → (state : RecordValue) × IsWellFormed state × (word_of state ≡ word) × ArePartsOf parts.new state }
    ensures refused { result ≢ 0 → (result ≡ BAD_WORD) × IsNoWord word }
    ensures kept { result ≢ 0 → parts.new ≡ parts.old }
{
    match unpack(word) {
        Some(state) => {
            *parts = RecordParts::of(&state);
            0
        }
        None => BAD_WORD,
    }
}

/// Returns the word of the record with these parts.
#[unsafe(no_mangle)]
pub extern "C" fn durkenzo_pack(parts: &RecordParts, word: &mut u64) -> u32
    ensures made { result ≡ 0 → PacksParts parts.now word.new }
    ensures refused { result ≢ 0 → (result ≡ BAD_ARGUMENT) × HasNoRecord parts.now }
    ensures kept { result ≢ 0 → word.new ≡ word.old }
{
    match packed_word(parts) {
        Some(made) => {
            *word = made;
            0
        }
        None => BAD_ARGUMENT,
    }
}

/// Returns whether the shard of this word has the server execute a request that came directly (`from` 0) or from that
/// server.
#[unsafe(no_mangle)]
pub extern "C" fn durkenzo_accepts(word: u64, server: u16, from: u16, accepted: &mut bool) -> u32
    ensures made { result ≡ 0 → AcceptsWord word server from accepted.new }
    ensures refused { result ≢ 0 → ((result ≡ BAD_ARGUMENT) × (IsNoServer server ⊎ (MAX_SERVER < from)))
        ⊎ ((result ≡ BAD_WORD) × IsNoWord word) }
    ensures kept { result ≢ 0 → accepted.new ≡ accepted.old }
{
    let Some(server) = known_server(server) else {
        return BAD_ARGUMENT;
    };
    let Some(mode) = mode_of(from) else {
        return BAD_ARGUMENT;
    };
    let Some(state) = unpack(word) else {
        return BAD_WORD;
    };
    *accepted = state.accepts(server, mode);
    0
}

/// Returns the server to which this one forwards requests on the shard of this word, or 0, also if no record has this
/// word or there is no such server.
#[unsafe(no_mangle)]
pub extern "C" fn durkenzo_forward(word: u64, server: u16) -> u16
    ensures named { (state : RecordValue) → IsWellFormed state → word_of state ≡ word → IsServer server
        → result ≡ unwrap_or (forward_to state server) 0 }
    ensures none { IsNoWord word ⊎ IsNoServer server → result ≡ 0 }
{
    match (unpack(word), ServerId::new(server)) {
        (Some(state), Some(server)) => number(state.forward_to(server)),
        (None, _) | (_, None) => 0,
    }
}

/// Returns the server that executes requests on the shard of this word, or 0, also if no record has this word.
#[unsafe(no_mangle)]
pub extern "C" fn durkenzo_executor(word: u64) -> u16
    ensures named { (state : RecordValue) → IsWellFormed state → word_of state ≡ word
        → result ≡ unwrap_or (executor state) 0 }
    ensures none { IsNoWord word → result ≡ 0 }
{
    match unpack(word) {
        Some(state) => number(state.executor()),
        None => 0,
    }
}

/// Opens a board with a body for each number, of so many servers from 1 on, at most `ops` of which restart at once.
/// Generations stay at or below the ceiling. The handle keeps its control, in place of its earlier state.
#[unsafe(no_mangle)]
pub extern "C" fn durkenzo_open(
    alloc: Global,
    chief: &mut Handle,
    numbers: &[u64],
    servers: u16,
    ops: u16,
    ceiling: u64,
) -> u32
    ensures made { result ≡ 0 → IsOpened chief.new.owned.state numbers.now servers ops ceiling 0 }
    ensures refused { result ≢ 0 → (fault : OpenFaultValue)
        × OpensNothing (length numbers.now) servers ops ceiling fault × (result ≡ open_fault_code fault) }
    ensures kept { result ≢ 0 → chief.new.owned.state ≡ chief.old.owned.state }
{
    match chief.open(alloc, numbers, servers, ops, ceiling, Fence::first()) {
        Ok(()) => 0,
        Err(fault) => code_of_open(fault),
    }
}

/// Makes a new pass on the board of this control, with this server, which the board must have. The pass's handle keeps
/// it, in place of its earlier state.
#[unsafe(no_mangle)]
pub extern "C" fn durkenzo_pass(
    alloc: Global,
    chief: &mut Handle,
    pass: &mut Handle,
    server: u16,
) -> u32
    ensures chief { chief.new.owned.state ≡ chief.old.owned.state }
    ensures made { result ≡ 0 → IsPassOf chief.old.owned.state pass.new.owned.state (Some server) }
    ensures refused { result ≢ 0 → ((result ≡ BAD_ARGUMENT) × IsNoServer server)
        ⊎ IsCodeOf (GivesNoPass chief.old.owned.state (Some server)) result }
    ensures kept { result ≢ 0 → pass.new.owned.state ≡ pass.old.owned.state }
{
    let Some(server) = known_server(server) else {
        return BAD_ARGUMENT;
    };
    match pass.pass(alloc, chief, Some(server)) {
        Ok(()) => 0,
        Err(fault) => code_of_act(fault),
    }
}

/// Looks at the shard, with a pass that may hold a permit.
#[unsafe(no_mangle)]
pub extern "C" fn durkenzo_look(pass: &mut Handle, shard: u16, parts: &mut RecordParts) -> u32
    ensures seen { result ≡ 0 → LooksAt pass.old.owned.state pass.new.owned.state shard parts.new }
    ensures refused { result ≢ 0 → ((result ≡ UNKNOWN_SHARD) × (MAX_SHARD < shard))
        ⊎ IsCodeOf (LooksNowhere pass.old.owned.state shard) result }
    ensures kept { result ≢ 0 → pass.new.owned.state ≡ pass.old.owned.state }
    ensures unwritten { result ≢ 0 → parts.new ≡ parts.old }
{
    let Some(k) = ShardId::new(shard) else {
        return UNKNOWN_SHARD;
    };
    match pass.look(k) {
        Ok(word) => {
            *parts = RecordParts::of_word(word);
            0
        }
        Err(fault) => code_of_act(fault),
    }
}

// No record has this word.
const NO_WORD: u64 = 0xffff_ffff_ffff_ffff;

/// Looks at the shard, with a pass that may hold a permit. Returns the word of its record, which the calls on words
/// take. If the handle keeps no pass or the board has no such shard, returns 2^64 - 1, which no record has.
#[unsafe(no_mangle)]
pub extern "C" fn durkenzo_look_word(pass: &mut Handle, shard: u16) -> u64
    ensures seen { result ≢ NO_WORD → TellsWord pass.old.owned.state pass.new.owned.state shard result }
    ensures refused { result ≡ NO_WORD
        → (MAX_SHARD < shard) ⊎ ((fault : ActFaultValue) × LooksNowhere pass.old.owned.state shard fault) }
    ensures kept { result ≡ NO_WORD → pass.new.owned.state ≡ pass.old.owned.state }
{
    let Some(k) = ShardId::new(shard) else {
        return NO_WORD;
    };
    match pass.look(k) {
        Ok(word) => word,
        Err(_) => NO_WORD,
    }
}

/// Admits the pass to the shard for a request that came directly (`from` 0) or from that server. `number` is that of
/// the shard's body, which nobody else gets until the admission ends. If a record refuses it, or another call was
/// faster, writes the record to `read`.
#[unsafe(no_mangle)]
pub extern "C" fn durkenzo_admit(
    pass: &mut Handle,
    shard: u16,
    from: u16,
    number: &mut u64,
    read: &mut RecordParts,
) -> u32
    ensures admitted { result ≡ 0 → AdmitsFrom pass.old.owned.state pass.new.owned.state shard from number.new }
    ensures refused { result ≢ 0
        → RefusesFrom pass.old.owned.state pass.new.owned.state shard from read.old read.new result }
    ensures unread { result ≡ 0 → read.new ≡ read.old }
    ensures unwritten { result ≢ 0 → number.new ≡ number.old }
{
    let Some(k) = ShardId::new(shard) else {
        return UNKNOWN_SHARD;
    };
    let Some(mode) = mode_of(from) else {
        return BAD_ARGUMENT;
    };
    match pass.admit(k, mode) {
        Ok(body) => {
            *number = body;
            0
        }
        Err(fault) => {
            tell_parts(&fault, read);
            code_of_pass(&fault)
        }
    }
}

/// Does the same, but writes the record's word to `word` if a record refuses it, or another call was faster.
#[unsafe(no_mangle)]
pub extern "C" fn durkenzo_admit_word(
    pass: &mut Handle,
    shard: u16,
    from: u16,
    number: &mut u64,
    word: &mut u64,
) -> u32
    ensures admitted { result ≡ 0 → AdmitsFrom pass.old.owned.state pass.new.owned.state shard from number.new }
    ensures refused { result ≢ 0
        → RefusesByWord pass.old.owned.state pass.new.owned.state shard from word.old word.new result }
    ensures unread { result ≡ 0 → word.new ≡ word.old }
    ensures unwritten { result ≢ 0 → number.new ≡ number.old }
{
    let Some(k) = ShardId::new(shard) else {
        return UNKNOWN_SHARD;
    };
    let Some(mode) = mode_of(from) else {
        return BAD_ARGUMENT;
    };
    match pass.admit(k, mode) {
        Ok(admitted) => {
            *number = admitted;
            0
        }
        Err(fault) => {
            tell_word(&fault, word);
            code_of_pass(&fault)
        }
    }
}

/// Ends the admission of the pass. `generation` is the shard's since then.
#[unsafe(no_mangle)]
pub extern "C" fn durkenzo_finish(pass: &mut Handle, generation: &mut u64) -> u32
    ensures ended { result ≡ 0 → EndsHandle pass.old.owned.state pass.new.owned.state generation.new }
    ensures refused { result ≢ 0 → (result ≡ WRONG_HANDLE) × HoldsNothing pass.old.owned.state }
    ensures kept { result ≢ 0 → pass.new.owned.state ≡ pass.old.owned.state }
    ensures unwritten { result ≢ 0 → generation.new ≡ generation.old }
{
    match pass.finish() {
        Ok(left) => {
            *generation = left;
            0
        }
        Err(fault) => code_of_pass(&fault),
    }
}

/// Makes the change of this kind and server. A refusal by a record, or a lost race, writes to `read`.
#[unsafe(no_mangle)]
pub extern "C" fn durkenzo_change(
    chief: &mut Handle,
    shard: u16,
    kind: u8,
    server: u16,
    read: &mut RecordParts,
) -> u32
    ensures made { result ≡ 0 → ChangesBoard chief.old.owned.state chief.new.owned.state shard kind server }
    ensures refused { result ≢ 0
        → RefusesChange chief.old.owned.state chief.new.owned.state shard kind server read.old read.new result }
    ensures unread { result ≡ 0 → read.new ≡ read.old }
{
    let Some(k) = ShardId::new(shard) else {
        return UNKNOWN_SHARD;
    };
    let Some(change) = change_of(kind, server) else {
        return BAD_ARGUMENT;
    };
    match chief.command(Command::Change(k, change)) {
        Ok(()) => 0,
        Err(fault) => {
            tell(read_of(&fault), read);
            code_of_act(fault)
        }
    }
}

/// Makes the step of this kind of the server's restart.
#[unsafe(no_mangle)]
pub extern "C" fn durkenzo_restart(chief: &mut Handle, kind: u8, server: u16) -> u32
    ensures made { result ≡ 0 → Restarts chief.old.owned.state chief.new.owned.state kind server }
    ensures refused { result ≢ 0 → RefusesRestart chief.old.owned.state chief.new.owned.state kind server result }
{
    let Some(step) = step_of(kind, server) else {
        return BAD_ARGUMENT;
    };
    match chief.command(step) {
        Ok(()) => 0,
        Err(fault) => code_of_act(fault),
    }
}

/// Drops the state that the handle keeps. If it has an admission, that ends.
#[unsafe(no_mangle)]
pub extern "C" fn durkenzo_close(alloc: Global, handle: &mut Handle)
    ensures { handle.new.owned.state ≡ None }
{
    handle.close(alloc);
}
