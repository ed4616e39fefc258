//! The control of a shared store, for callers in C, C++, Python and Rust: its commands and its next steps, without any
//! input or output of its own. The caller is elected, reads the store, sends the transactions and tells their outcomes.
//! Each call answers 0, or a code of library/codes.txt. A handle must begin as bytes of 0. It may pass from thread to
//! thread, and is used by one call at a time.
#![tactic(auto)]

ghost use Rattle.std.specs.Prelude.{◌≡◌, ◌≢◌, ◌<◌, ◌≤◌, None, Some, length, unwrap_or};
ghost use Rattle.sm_codec.specs.Spelling.{state_number};
ghost use Rattle.sm_lead.specs.Commands.{read_at, run_at};
ghost use Rattle.sm_lead.specs.NextSteps.{fallen, server_step, shard_step};
ghost use Rattle.sm_ranges.specs.Ranges.{shard_of};
ghost use Rattle.sm_ranges.specs.ServerId.{IsServer};
ghost use Rattle.sm_ranges.specs.ShardId.{IsShard};
ghost use Rattle.sm_word.specs.Word.{word_of};
ghost use Rattle.sm_director.specs.Calls.{BreaksRule, DirectsOn, IsServerAt, KeepsDirector, RefusesParts, SendsParts};
ghost use Rattle.sm_director.specs.Calls.{SpellsSent, TellsStep};
ghost use Rattle.sm_director.specs.Directors.{AddsAck, AddsFollower, AddsRecord, AddsState, ForgetsAcks, ForgetsAll};
ghost use Rattle.sm_director.specs.Directors.{ForgetsFollowers};
ghost use Rattle.sm_director.specs.Directors.{HasControl, IsNewDirector, KeepsAll, LoadsControl, MakesCommand};
ghost use Rattle.sm_director.specs.Directors.{drain_step, vacant_step};
ghost use Rattle.sm_director.specs.Refusals.{AreRefusedBy, CannotSpell, HasNoControl, IsNotSent, IsRefusedBy};
ghost use Rattle.sm_director.specs.Refusals.{LacksMemory, LacksServer, LacksShard, RefusesPartsFor};
ghost use Rattle.sm_director.specs.Resettlings.{KeepsBoth, RefusesByCode, RefusesResettling, SendsSettings};

mod codes;
pub mod command_numbers;
pub mod director;
mod director_fault;
pub mod director_handle;
pub mod director_stage;
mod kinds;
mod layouts;
mod owned_director;
mod spelling;
pub mod step_parts;
mod words;
mod written;

use codes::{
    BAD_ARGUMENT, BAD_BYTES, NO_MEMORY, NO_MORE, UNKNOWN_SHARD, WRONG_HANDLE, code_of, code_of_line,
};
pub use command_numbers::CommandNumbers;
pub use director::Director;
pub use director_handle::DirectorHandle;
pub use director_stage::DirectorStage;
use kinds::{command_of, number_of, parts_of, state_number};
use sm_lead::Leadership;
use sm_ranges::server_id::ServerId;
use sm_ranges::shard_id::ShardId;
use sm_word::word::pack;
use std::alloc::Global;
pub use step_parts::StepParts;
use words::has_word;

/// Makes the control of the store with this line of settings, for a process that was elected at this revision. It has
/// read nothing. `waits` says whether commands wait for acks, as they must unless one process has all servers. The
/// handle keeps it, in place of its earlier state, and there are so many shards and servers.
#[unsafe(no_mangle)]
pub extern "C" fn durkenzo_director(
    alloc: Global,
    director: &mut DirectorHandle,
    line: &[u8],
    process: u64,
    elected: u64,
    waits: bool,
    shards: &mut usize,
    servers: &mut usize,
) -> u32
    ensures made { result ≡ 0 → KeepsDirector (IsNewDirector line.now process elected waits)
        director.new.owned.state }
    ensures counts { result ≡ 0 → KeepsDirector (λ made. (shards.new ≡ length made.settings.shards.items)
        × (servers.new ≡ length made.settings.servers.items)) director.new.owned.state }
    ensures fault { 70 ≤ result → BreaksRule line.now result }
    ensures kept { result ≢ 0 → director.new.owned.state ≡ director.old.owned.state }
{
    let Some(lead) = Leadership::new(process, elected) else {
        return BAD_ARGUMENT;
    };
    let made = match Director::new(alloc, line, lead, waits) {
        Ok(made) => made,
        Err(fault) => return code_of_line(fault),
    };
    let counts = (made.settings.shards.len(), made.settings.servers.len());
    if director.keep(alloc, made).is_err() {
        return NO_MEMORY;
    }
    (*shards, *servers) = counts;
    0
}

/// Writes the server at this place of the settings' rows, from 0.
#[unsafe(no_mangle)]
pub extern "C" fn durkenzo_director_server(
    director: &mut DirectorHandle,
    at: usize,
    server: &mut u16,
) -> u32
    ensures told { result ≡ 0 → KeepsDirector (IsServerAt at server.new) director.old.owned.state }
    ensures unchanged { director.new.owned.state ≡ director.old.owned.state }
{
    if !director.full {
        return WRONG_HANDLE;
    }
    match director.owned.state_mut().settings.servers.get(at) {
        Some(row) => {
            *server = row.id.number();
            0
        }
        None => NO_MORE,
    }
}

/// Writes the shard of the key, which may be any bytes, by the settings' layout.
#[unsafe(no_mangle)]
pub extern "C" fn durkenzo_director_shard_of(
    director: &mut DirectorHandle,
    key: &[u8],
    shard: &mut u16,
) -> u32
    ensures told { result ≡ 0 → KeepsDirector (λ kept. shard.new ≡ shard_of kept.settings.layout key.now)
        director.old.owned.state }
    ensures unchanged { director.new.owned.state ≡ director.old.owned.state }
{
    if !director.full {
        return WRONG_HANDLE;
    }
    let found = director.owned.state_mut().settings.layout.shard_of(key);
    *shard = found.number();
    0
}

/// Adds the next shard's record, as it lies at its key, which was last written at this revision.
#[unsafe(no_mangle)]
pub extern "C" fn durkenzo_director_record(
    director: &mut DirectorHandle,
    bytes: &[u8],
    stood: u64,
) -> u32
    ensures made { result ≡ 0
        → DirectsOn (AddsRecord bytes.now stood) director.old.owned.state director.new.owned.state }
    ensures kept { 3 ≤ result → DirectsOn KeepsAll director.old.owned.state director.new.owned.state }
    ensures held { result ≢ 0 → result < 3 → director.new.owned.state ≡ director.old.owned.state }
{
    if !director.full {
        return WRONG_HANDLE;
    }
    match director.owned.state_mut().add_record(bytes, stood) {
        Ok(()) => 0,
        Err(fault) => code_of(fault),
    }
}

/// Adds the next server's state, as it lies at its key.
#[unsafe(no_mangle)]
pub extern "C" fn durkenzo_director_state(director: &mut DirectorHandle, bytes: &[u8]) -> u32
    ensures made { result ≡ 0 → DirectsOn (AddsState bytes.now) director.old.owned.state director.new.owned.state }
    ensures kept { 3 ≤ result → DirectsOn KeepsAll director.old.owned.state director.new.owned.state }
    ensures held { result ≢ 0 → result < 3 → director.new.owned.state ≡ director.old.owned.state }
{
    if !director.full {
        return WRONG_HANDLE;
    }
    match director.owned.state_mut().add_state(bytes) {
        Ok(()) => 0,
        Err(fault) => code_of(fault),
    }
}

/// Notes that everything that was added was read, at one revision, at which the key of commands was last written at
/// this one. Then there is a control; or, if none can be made, nothing is read. The added readings are dropped.
#[unsafe(no_mangle)]
pub extern "C" fn durkenzo_director_read(
    alloc: Global,
    director: &mut DirectorHandle,
    placed: u64,
) -> u32
    ensures made { result ≡ 0 → DirectsOn (LoadsControl placed) director.old.owned.state director.new.owned.state }
    ensures unread { 2 ≤ result → DirectsOn ForgetsAll director.old.owned.state director.new.owned.state }
    ensures held { result ≢ 0 → result < 2 → director.new.owned.state ≡ director.old.owned.state }
{
    if !director.full {
        return WRONG_HANDLE;
    }
    match director.owned.state_mut().read(alloc, placed) {
        Ok(()) => 0,
        Err(fault) => code_of(fault),
    }
}

/// Judges the command of this kind, for the shard and the server that it names. `process` runs the server; it is 0 if
/// none was seen. Returns 0 if the command must be sent, and nothing else until its outcome is told. Otherwise returns
/// the code of the first fault, and nothing has happened.
#[unsafe(no_mangle)]
pub extern "C" fn durkenzo_director_command(
    director: &mut DirectorHandle,
    kind: u8,
    shard: u16,
    server: u16,
    process: u64,
) -> u32
    ensures sent { result ≡ 0 → DirectsOn (SendsParts (record { shard = shard; server = server; kind = kind }) process)
        director.old.owned.state director.new.owned.state }
    ensures refused { 10 ≤ result → result < 50
        → KeepsDirector (RefusesParts (record { shard = shard; server = server; kind = kind }) result)
        director.old.owned.state }
    ensures kept { result ≢ 0 → director.new.owned.state ≡ director.old.owned.state }
    ensures unsent { result ≢ 0 → result ≢ 2
        → IsRefusedBy (RefusesPartsFor (record { shard = shard; server = server; kind = kind })) result
        director.old.owned.state }
{
    let parts = StepParts {
        shard,
        server,
        kind,
    };
    let Some(command) = command_of(&parts) else {
        return BAD_ARGUMENT;
    };
    if !director.full {
        return WRONG_HANDLE;
    }
    match director.owned.state_mut().command(process, command) {
        Ok(()) => 0,
        Err(fault) => code_of(fault),
    }
}

/// Writes the compares and the writes of the command that was sent: its numbers, and the bytes for the record or the
/// state, followed by those for the key of commands.
#[unsafe(no_mangle)]
pub extern "C" fn durkenzo_director_sending(
    alloc: Global,
    director: &mut DirectorHandle,
    numbers: &mut CommandNumbers,
    into: &mut [u8],
) -> u32
    ensures written { result ≡ 0 → KeepsDirector (SpellsSent numbers.new into.new) director.old.owned.state }
    ensures unchanged { director.new.owned.state ≡ director.old.owned.state }
    ensures refused { result ≢ 0 → IsRefusedBy CannotSpell result director.old.owned.state }
{
    if !director.full {
        return WRONG_HANDLE;
    }
    match director.owned.state_mut().sending(alloc, numbers, into) {
        Ok(()) => 0,
        Err(fault) => code_of(fault),
    }
}

/// Tells the director that the command that was sent was made, at this revision.
#[unsafe(no_mangle)]
pub extern "C" fn durkenzo_director_made(director: &mut DirectorHandle, revision: u64) -> u32
    ensures made { result ≡ 0
        → DirectsOn (MakesCommand revision) director.old.owned.state director.new.owned.state }
    ensures refused { result ≢ 0 → IsRefusedBy IsNotSent result director.old.owned.state }
    ensures kept { result ≢ 0 → director.new.owned.state ≡ director.old.owned.state }
{
    if !director.full {
        return WRONG_HANDLE;
    }
    match director.owned.state_mut().on_made(revision) {
        Ok(()) => 0,
        Err(fault) => code_of(fault),
    }
}

/// Notes that a compare of the sent command didn't hold, or that its outcome isn't known, or that something must be
/// read again: the director has read nothing.
#[unsafe(no_mangle)]
pub extern "C" fn durkenzo_director_lost(alloc: Global, director: &mut DirectorHandle) -> u32
    ensures forgot { result ≡ 0 → DirectsOn ForgetsAll director.old.owned.state director.new.owned.state }
    ensures kept { result ≢ 0 → director.new.owned.state ≡ director.old.owned.state }
    ensures refused { result ≢ 0 → director.old.owned.state ≡ None }
{
    if !director.full {
        return WRONG_HANDLE;
    }
    director.owned.state_mut().forget(alloc);
    0
}

/// Judges the settings of the other director, which is of the same process and was read by the same records and
/// states. Because the other director stands, the records and states keep to its settings. If these may come in place
/// of this director's, returns 0 and writes the numbers of the transaction that puts them: it compares as a command,
/// with `absent` 0, and puts the bytes at the key of commands, and the very line of which the other director was made,
/// which the caller has. Whatever the outcome, the caller must read the settings again and make a director by them.
/// Else returns the code of the first fault, with the server of `IN_USE`, or 0.
#[unsafe(no_mangle)]
pub extern "C" fn durkenzo_director_resettle(
    alloc: Global,
    director: &mut DirectorHandle,
    other: &mut DirectorHandle,
    in_use: &mut u16,
    numbers: &mut CommandNumbers,
    into: &mut [u8],
) -> u32
    ensures sent { result ≡ 0 → KeepsBoth (λ kept drafted. SendsSettings kept drafted numbers.new into.new)
        director.old.owned.state other.old.owned.state }
    ensures refused { 99 ≤ result → KeepsBoth (λ kept drafted. RefusesByCode kept drafted result in_use.new)
        director.old.owned.state other.old.owned.state }
    ensures unchanged { (director.new.owned.state ≡ director.old.owned.state)
        × (other.new.owned.state ≡ other.old.owned.state) }
    ensures unsent { result ≢ 0
        → AreRefusedBy RefusesResettling result director.old.owned.state other.old.owned.state }
{
    if !director.full || !other.full {
        return WRONG_HANDLE;
    }
    let drafted = other.owned.state_mut();
    let kept = director.owned.state_mut();
    match kept.resettle(alloc, drafted, numbers, into) {
        Ok(()) => 0,
        Err(fault) => {
            *in_use = number_of(fault.in_use());
            code_of(fault)
        }
    }
}

/// Adds a server whose key is there, and the revision up to which it has said that it has read the store.
#[unsafe(no_mangle)]
pub extern "C" fn durkenzo_director_follower(
    director: &mut DirectorHandle,
    server: u16,
    revision: u64,
) -> u32
    ensures made { result ≡ 0
        → DirectsOn (AddsFollower server revision) director.old.owned.state director.new.owned.state }
    ensures kept { 3 ≤ result → DirectsOn KeepsAll director.old.owned.state director.new.owned.state }
    ensures held { result ≢ 0 → result < 3 → director.new.owned.state ≡ director.old.owned.state }
{
    let Some(server) = ServerId::new(server) else {
        return BAD_ARGUMENT;
    };
    if !director.full {
        return WRONG_HANDLE;
    }
    match director.owned.state_mut().add_follower(server, revision) {
        Ok(()) => 0,
        Err(fault) => code_of(fault),
    }
}

/// Forgets all followers.
#[unsafe(no_mangle)]
pub extern "C" fn durkenzo_director_forget_followers(
    alloc: Global,
    director: &mut DirectorHandle,
) -> u32
    ensures forgot { result ≡ 0 → DirectsOn ForgetsFollowers director.old.owned.state director.new.owned.state }
    ensures kept { result ≢ 0 → director.new.owned.state ≡ director.old.owned.state }
    ensures refused { result ≢ 0 → director.old.owned.state ≡ None }
{
    if !director.full {
        return WRONG_HANDLE;
    }
    director.owned.state_mut().forget_followers(alloc);
    0
}

/// Adds the generation up to which a server was read to have acked a shard's records.
#[unsafe(no_mangle)]
pub extern "C" fn durkenzo_director_ack(
    director: &mut DirectorHandle,
    shard: u16,
    server: u16,
    generation: u64,
) -> u32
    ensures made { result ≡ 0
        → DirectsOn (AddsAck shard server generation) director.old.owned.state director.new.owned.state }
    ensures kept { 3 ≤ result → DirectsOn KeepsAll director.old.owned.state director.new.owned.state }
    ensures held { result ≢ 0 → result < 3 → director.new.owned.state ≡ director.old.owned.state }
{
    let Some(k) = ShardId::new(shard) else {
        return BAD_ARGUMENT;
    };
    let Some(server) = ServerId::new(server) else {
        return BAD_ARGUMENT;
    };
    if !director.full {
        return WRONG_HANDLE;
    }
    match director.owned.state_mut().add_ack(k, server, generation) {
        Ok(()) => 0,
        Err(fault) => code_of(fault),
    }
}

/// Forgets all acks.
#[unsafe(no_mangle)]
pub extern "C" fn durkenzo_director_forget_acks(alloc: Global, director: &mut DirectorHandle) -> u32
    ensures forgot { result ≡ 0 → DirectsOn ForgetsAcks director.old.owned.state director.new.owned.state }
    ensures kept { result ≢ 0 → director.new.owned.state ≡ director.old.owned.state }
    ensures refused { result ≢ 0 → director.old.owned.state ≡ None }
{
    if !director.full {
        return WRONG_HANDLE;
    }
    director.owned.state_mut().forget_acks(alloc);
    0
}

/// Writes the next step of the shard.
#[unsafe(no_mangle)]
pub extern "C" fn durkenzo_director_next_of_shard(
    director: &mut DirectorHandle,
    shard: u16,
    step: &mut StepParts,
) -> u32
    ensures told { result ≡ 0 → KeepsDirector (λ kept. HasControl (λ control.
        TellsStep step.new (shard_step control kept.followers.items kept.acks.items shard) control)
        kept) director.old.owned.state }
    ensures unchanged { director.new.owned.state ≡ director.old.owned.state }
    ensures refused { result ≢ 0 → IsShard shard → IsRefusedBy (LacksShard shard) result director.old.owned.state }
{
    let Some(k) = ShardId::new(shard) else {
        return UNKNOWN_SHARD;
    };
    if !director.full {
        return WRONG_HANDLE;
    }
    match director.owned.state_mut().next_of_shard(k) {
        Ok(next) => {
            *step = parts_of(&next);
            0
        }
        Err(fault) => code_of(fault),
    }
}

/// Writes the next step of the server's restart, by the acks that were added.
#[unsafe(no_mangle)]
pub extern "C" fn durkenzo_director_next_of_server(
    director: &mut DirectorHandle,
    server: u16,
    step: &mut StepParts,
) -> u32
    ensures told { result ≡ 0 → KeepsDirector (λ kept. HasControl (λ control.
        TellsStep step.new (server_step control kept.acks.items server) control) kept) director.old.owned.state }
    ensures unchanged { director.new.owned.state ≡ director.old.owned.state }
    ensures refused { result ≢ 0 → IsServer server → IsRefusedBy HasNoControl result director.old.owned.state }
{
    let Some(server) = ServerId::new(server) else {
        return BAD_ARGUMENT;
    };
    if !director.full {
        return WRONG_HANDLE;
    }
    match director.owned.state_mut().next_of_server(server) {
        Ok(next) => {
            *step = parts_of(&next);
            0
        }
        Err(fault) => code_of(fault),
    }
}

/// Writes the next step of the drain of the server, or of the vacant shards if it is 0.
#[unsafe(no_mangle)]
pub extern "C" fn durkenzo_director_next_of_drain(
    alloc: Global,
    director: &mut DirectorHandle,
    server: u16,
    step: &mut StepParts,
) -> u32
    ensures drain { result ≡ 0 → server ≢ 0 → KeepsDirector (HasControl (λ control.
        TellsStep step.new (drain_step control server) control)) director.old.owned.state }
    ensures vacant { result ≡ 0 → server ≡ 0 → KeepsDirector (HasControl (λ control.
        TellsStep step.new (vacant_step control) control)) director.old.owned.state }
    ensures unchanged { director.new.owned.state ≡ director.old.owned.state }
    ensures refused { result ≢ 0 → (server ≢ 0 → IsServer server)
        → IsRefusedBy LacksMemory result director.old.owned.state }
{
    if !director.full {
        return WRONG_HANDLE;
    }
    if server == 0 {
        return match director.owned.state_mut().next_of_vacant(alloc) {
            Ok(next) => {
                *step = parts_of(&next);
                0
            }
            Err(fault) => code_of(fault),
        };
    }
    let Some(server) = ServerId::new(server) else {
        return BAD_ARGUMENT;
    };
    match director.owned.state_mut().next_of_drain(alloc, server) {
        Ok(next) => {
            *step = parts_of(&next);
            0
        }
        Err(fault) => code_of(fault),
    }
}

/// Writes the first server to which requests go although it isn't among the followers, or 0 for none.
#[unsafe(no_mangle)]
pub extern "C" fn durkenzo_director_fallen(director: &mut DirectorHandle, server: &mut u16) -> u32
    ensures told { result ≡ 0 → KeepsDirector (λ kept. HasControl (λ control.
        server.new ≡ unwrap_or (fallen control.desk.books kept.followers.items) 0) kept) director.old.owned.state }
    ensures unchanged { director.new.owned.state ≡ director.old.owned.state }
    ensures refused { result ≢ 0 → IsRefusedBy HasNoControl result director.old.owned.state }
{
    if !director.full {
        return WRONG_HANDLE;
    }
    match director.owned.state_mut().fallen() {
        Ok(found) => {
            *server = number_of(found);
            0
        }
        Err(fault) => code_of(fault),
    }
}

/// Writes the word of the shard's record, and the revision at which it was last written.
#[unsafe(no_mangle)]
pub extern "C" fn durkenzo_director_record_of(
    director: &mut DirectorHandle,
    shard: u16,
    word: &mut u64,
    stood: &mut u64,
) -> u32
    ensures told { result ≡ 0 → KeepsDirector (HasControl (λ control.
        (word.new ≡ word_of (read_at control.records.items shard).state)
        × (stood.new ≡ (read_at control.records.items shard).stood))) director.old.owned.state }
    ensures unchanged { director.new.owned.state ≡ director.old.owned.state }
{
    let Some(k) = ShardId::new(shard) else {
        return UNKNOWN_SHARD;
    };
    if !director.full {
        return WRONG_HANDLE;
    }
    match director.owned.state_mut().record_of(k) {
        Ok(read) => {
            if !has_word(&read.state) {
                return BAD_BYTES;
            }
            *word = pack(read.state);
            *stood = read.stood;
            0
        }
        Err(fault) => code_of(fault),
    }
}

/// Writes the number of the server's state, and the process that it names, or 0 for none.
#[unsafe(no_mangle)]
pub extern "C" fn durkenzo_director_state_of(
    director: &mut DirectorHandle,
    server: u16,
    state: &mut u8,
    process: &mut u64,
) -> u32
    ensures told { result ≡ 0 → KeepsDirector (HasControl (λ control.
        (state.new ≡ state_number (run_at control server).state) × (process.new ≡ (run_at control server).process)))
        director.old.owned.state }
    ensures unchanged { director.new.owned.state ≡ director.old.owned.state }
    ensures refused { result ≢ 0 → IsServer server → IsRefusedBy (LacksServer server) result director.old.owned.state }
{
    let Some(server) = ServerId::new(server) else {
        return BAD_ARGUMENT;
    };
    if !director.full {
        return WRONG_HANDLE;
    }
    match director.owned.state_mut().run_of(server) {
        Ok(found) => {
            *state = state_number(found.state);
            *process = found.process;
            0
        }
        Err(fault) => code_of(fault),
    }
}

/// Drops the director that the handle keeps.
#[unsafe(no_mangle)]
pub extern "C" fn durkenzo_director_close(alloc: Global, director: &mut DirectorHandle)
    ensures { director.new.owned.state ≡ None }
{
    director.close(alloc);
}
