//! A server's core over a shared store for a caller's own service, in C, C++, Python and Rust. Requests are bytes of
//! that service. The core orders them and makes each exactly once; it tells that a client's request was made, and its
//! place among the shard's requests. The caller applies each request to its own state, in the order of places.
//!
//! The calls are those of `sm_driver`, with these differences. If a request only reads, its first byte is 1. The reply
//! to a request is its place. A read is told how many requests were made before it, and has no text. There are no keys.
#![tactic(auto)]

ghost use Rattle.std.specs.Prelude.{◌≡◌, ◌≢◌, false, true, None, length};
ghost use Rattle.sm_codec.specs.Spelling.{head_bytes};
ghost use Rattle.sm_shard.specs.declared.steps.ShardInput.TheVariants.{Base as BaseInput, Clear as ClearInput};
ghost use Rattle.sm_shard.specs.declared.steps.ShardInput.TheVariants.{Flush as FlushInput, Lost as LostInput};
ghost use Rattle.sm_shard.specs.declared.steps.ShardInput.TheVariants.{PartsMade as PartsInput};
ghost use Rattle.sm_shard.specs.Decisions.{batches_made, clients_kept};
ghost use Rattle.sm_shard_bytes.specs.Calls.{Between, IsDecidedAs, IsRequestInput, KeepsState, WritesPart};
ghost use Rattle.sm_shard_bytes.specs.Calls.{WritesSending, is_decided};
ghost use Rattle.sm_shard_bytes.specs.Refusals.{IsUnmade, LeavesState, RefusesAppend, RefusesBytes};
ghost use Rattle.sm_shard_bytes.specs.Refusals.{RefusesMemory, RefusesOutcome, RefusesPart, RefusesReadAll};
ghost use Rattle.sm_shard_bytes.specs.Refusals.{RefusesRequest, RefusesSending, RefusesServer};
ghost use Rattle.sm_shard_bytes.specs.Replies.{place_bytes};
ghost use Rattle.sm_shard_bytes.specs.Servers.{AddsBatch, AddsPart, IsAny, IsAppending, IsReading, IsRecordReading};
ghost use Rattle.sm_shard_bytes.specs.Servers.{TellsAnswers, is_basing, is_clearing, is_sending, passing_key};
ghost use Rattle.sm_shard_bytes.specs.Servers.{request_size};
ghost use Rattle.sm_opaque.specs.Opaque.{only_reads, opaque_service};
ghost use Rattle.sm_relay.specs.Calls.{IsPlaceMade, IsPlaceRead, LacksPlace, LacksPlaceRead, RefusesRelay};
ghost use Rattle.sm_relay.specs.Calls.{RelaysOn, TellsPlace};
ghost use Rattle.sm_relay.specs.Relays.{IsNewRelay, requests_made};

mod owned_relay;
pub mod place_answer;
pub mod relay_handle;
pub mod relay_server;

pub use place_answer::PlaceAnswer;
pub use relay_handle::RelayHandle;
pub use relay_server::RelayServer;
use sm_opaque::is_read;
use sm_ranges::server_id::ServerId;
use sm_ranges::shard_id::ShardId;
use sm_shard::{ReadReply, ShardLimits};
use sm_shard_bytes::codes::{
    BAD_ARGUMENT, BAD_BYTES, NO_MEMORY, NO_MORE, UNKNOWN_SHARD, WRONG_HANDLE,
};
use sm_shard_bytes::{ForwardNumbers, LogHead, PartNumbers, SentNumbers, calls};
use std::alloc::Global;

/// Makes a server of the shard, one of so many, that has read nothing yet. A batch takes at most so many bytes and
/// requests, at most so many requests wait, and the last request of so many clients is kept. The handle keeps the
/// server, in place of its earlier state.
#[unsafe(no_mangle)]
pub extern "C" fn durkenzo_relay(
    alloc: Global,
    relay: &mut RelayHandle,
    me: u16,
    shard: u16,
    count: u64,
    batch_bytes: u64,
    batch_requests: usize,
    waiting: usize,
    clients: usize,
) -> u32
    ensures made { result ≡ 0 → KeepsState (IsNewRelay me shard count (record {
      batch_bytes = batch_bytes;
      batch_requests = batch_requests;
      waiting = waiting;
      clients = clients;
    })) relay.new.owned.state }
    ensures kept { result ≢ 0 → relay.new.owned.state ≡ relay.old.owned.state }
    ensures refused { result ≢ 0 → IsUnmade me shard count result }
{
    let Some(me) = ServerId::new(me) else {
        return BAD_ARGUMENT;
    };
    let Some(shard) = ShardId::new(shard) else {
        return UNKNOWN_SHARD;
    };
    let limits = ShardLimits {
        batch_bytes,
        batch_requests,
        waiting,
        clients,
    };
    let Some(made) = RelayServer::new(alloc, me, shard, count, limits) else {
        return UNKNOWN_SHARD;
    };
    match relay.keep(alloc, made) {
        Ok(()) => 0,
        Err(_) => NO_MEMORY,
    }
}

/// Adds the next batch that was read, in the order of their numbers, before `durkenzo_relay_read` or
/// `durkenzo_relay_append`.
#[unsafe(no_mangle)]
pub extern "C" fn durkenzo_relay_batch(alloc: Global, relay: &mut RelayHandle, bytes: &[u8]) -> u32
    ensures made { result ≡ 0 → Between (λ old new. (new.server.core ≡ old.server.core)
        × (new.server.parts ≡ old.server.parts)
        × AddsBatch old.server.batches.items bytes.now new.server.batches.items)
        relay.old.owned.state relay.new.owned.state }
    ensures refused { result ≢ 0 → RefusesRelay RefusesBytes result relay.old.owned.state relay.new.owned.state }
{
    if !relay.full {
        return WRONG_HANDLE;
    }
    calls::batch(alloc, &mut relay.owned.state_mut().server, bytes)
}

/// Adds the next part that was read of the base, in the order of their places, before `durkenzo_relay_read`.
#[unsafe(no_mangle)]
pub extern "C" fn durkenzo_relay_part_read(
    alloc: Global,
    relay: &mut RelayHandle,
    bytes: &[u8],
) -> u32
    ensures made { result ≡ 0 → Between (λ old new. (new.server.core ≡ old.server.core)
        × (new.server.batches ≡ old.server.batches)
        × AddsPart place_bytes old.server.parts.items bytes.now new.server.parts.items)
        relay.old.owned.state relay.new.owned.state }
    ensures refused { result ≢ 0 → RefusesRelay RefusesBytes result relay.old.owned.state relay.new.owned.state }
{
    if !relay.full {
        return WRONG_HANDLE;
    }
    calls::part_read(alloc, &mut relay.owned.state_mut().server, bytes)
}

/// Reads the bytes at a log's head, which tell the batches and parts that must be read.
#[unsafe(no_mangle)]
pub extern "C" fn durkenzo_relay_log_head(bytes: &[u8], head: &mut LogHead) -> u32
    ensures read { result ≡ 0 → bytes.now ≡ head_bytes (record {
      batches = head.new.batches;
      base = head.new.base;
      parts = head.new.parts;
    }) }
    ensures refused { result ≢ 0 → (result ≡ BAD_BYTES) × (head.new ≡ head.old) }
{
    calls::log_head(bytes, head)
}

/// Tells the handle what was read of the shard: the bytes of its record and of the head of its log, with their
/// revisions, and the parts and the batches that were added, which are let go.
#[unsafe(no_mangle)]
pub extern "C" fn durkenzo_relay_read(
    alloc: Global,
    relay: &mut RelayHandle,
    standing: &[u8],
    stood: u64,
    head: &[u8],
    logged: u64,
) -> u32
    ensures made { result ≡ 0 → RelaysOn relay.old.owned.state
        (λ old. IsReading old.server standing.now stood head.now logged) IsAny relay.new.owned.state }
    ensures refused { result ≢ 0 → RefusesRelay RefusesReadAll result relay.old.owned.state relay.new.owned.state }
{
    if !relay.full {
        return WRONG_HANDLE;
    }
    let relay = relay.owned.state_mut();
    calls::read(alloc, &mut relay.server, standing, stood, head, logged)
}

/// Notes that the shard was read from the end of the server's replica on: the bytes of its record and of the head of
/// its log, with their revisions, and the batches that were added, which are dropped. Requests that were sent or wait
/// at the server must be decided again.
#[unsafe(no_mangle)]
pub extern "C" fn durkenzo_relay_append(
    alloc: Global,
    relay: &mut RelayHandle,
    standing: &[u8],
    stood: u64,
    head: &[u8],
    logged: u64,
) -> u32
    ensures made { result ≡ 0 → RelaysOn relay.old.owned.state
        (λ old. IsAppending old.server standing.now stood head.now logged) IsAny relay.new.owned.state }
    ensures refused { result ≢ 0 → RefusesRelay RefusesAppend result relay.old.owned.state relay.new.owned.state }
{
    if !relay.full {
        return WRONG_HANDLE;
    }
    let relay = relay.owned.state_mut();
    calls::append(alloc, &mut relay.server, standing, stood, head, logged)
}

/// Writes how many batches the server has made: none before it has read. The caller must read those after them for
/// `durkenzo_relay_append`.
#[unsafe(no_mangle)]
pub extern "C" fn durkenzo_relay_batch_count(relay: &mut RelayHandle, batches: &mut u64) -> u32
    ensures told { result ≡ 0 → KeepsState (λ relay. batches.new ≡ batches_made relay.server.core.ready)
        relay.old.owned.state }
    ensures refused { result ≢ 0 → (result ≡ WRONG_HANDLE) × (relay.old.owned.state ≡ None) }
    ensures unchanged { relay.new.owned.state ≡ relay.old.owned.state }
{
    if !relay.full {
        return WRONG_HANDLE;
    }
    *batches = relay.owned.state_mut().server.core.batches();
    0
}

/// Notes that only the shard's record was read, or seen by the watch. Requests that wait at the server must be decided
/// again.
#[unsafe(no_mangle)]
pub extern "C" fn durkenzo_relay_record(
    alloc: Global,
    relay: &mut RelayHandle,
    standing: &[u8],
    stood: u64,
) -> u32
    ensures made { result ≡ 0 → RelaysOn relay.old.owned.state (λ old. IsRecordReading standing.now stood) IsAny
        relay.new.owned.state }
    ensures refused { result ≢ 0 → RefusesRelay RefusesBytes result relay.old.owned.state relay.new.owned.state }
{
    if !relay.full {
        return WRONG_HANDLE;
    }
    calls::record(alloc, &mut relay.owned.state_mut().server, standing, stood)
}

/// Takes a request, which came directly (`from` 0) or from that server, forwarded so often. Returns 0 with its reply if
/// it was made; otherwise the code of the decision. Once it is made, clients below `forgets` are forgotten. A request
/// that waits is answered when a transaction is made that was sent later.
#[unsafe(no_mangle)]
pub extern "C" fn durkenzo_relay_take(
    alloc: Global,
    relay: &mut RelayHandle,
    client: u64,
    number: u64,
    from: u16,
    hops: u8,
    forgets: u64,
    request: &[u8],
    place: &mut u64,
    forward: &mut ForwardNumbers,
) -> u32
    ensures decided { is_decided result ≡ true → RelaysOn relay.old.owned.state
        (λ old. IsRequestInput (only_reads request.now) client number from hops forgets request.now)
        (IsDecidedAs result place.new forward.new) relay.new.owned.state }
    ensures refused { is_decided result ≡ false → LeavesState
        (λ code old new. RefusesRequest from code old.server new.server) result
        relay.old.owned.state relay.new.owned.state }
{
    if !relay.full {
        return WRONG_HANDLE;
    }
    let reads = is_read(request);
    calls::take(
        alloc,
        &mut relay.owned.state_mut().server,
        client,
        number,
        from,
        hops,
        forgets,
        reads,
        request,
        place,
        forward,
    )
}

/// Makes waiting requests ready to be sent, if nothing is under way. `sends` says whether there is something to send
/// now.
#[unsafe(no_mangle)]
pub extern "C" fn durkenzo_relay_flush(
    alloc: Global,
    relay: &mut RelayHandle,
    sends: &mut bool,
) -> u32
    ensures made { result ≡ 0 → RelaysOn relay.old.owned.state (λ old input. input ≡ FlushInput)
        (λ output. is_sending output ≡ sends.new) relay.new.owned.state }
    ensures refused { result ≢ 0 → RefusesRelay RefusesMemory result relay.old.owned.state relay.new.owned.state }
{
    if !relay.full {
        return WRONG_HANDLE;
    }
    calls::flush(alloc, &mut relay.owned.state_mut().server, sends)
}

/// Writes the compares and the writes of the transaction that was sent: its numbers, and the bytes for the head,
/// followed by those for the batch.
#[unsafe(no_mangle)]
pub extern "C" fn durkenzo_relay_sending(
    alloc: Global,
    relay: &mut RelayHandle,
    numbers: &mut SentNumbers,
    into: &mut [u8],
) -> u32
    ensures written { result ≡ 0 → KeepsState (λ relay.
        WritesSending opaque_service numbers.new into.new relay.server) relay.old.owned.state }
    ensures unchanged { relay.new.owned.state ≡ relay.old.owned.state }
    ensures refused { result ≢ 0 → RefusesServer (λ code kept. RefusesSending code kept.server) result
        relay.old.owned.state }
{
    if !relay.full {
        return WRONG_HANDLE;
    }
    calls::sending(alloc, &relay.owned.state_mut().server, numbers, into)
}

/// Notes that the transaction was made at this revision, or has held there if it only compares. There are so many
/// answers to requests that were made, and to reads, which the next calls return.
#[unsafe(no_mangle)]
pub extern "C" fn durkenzo_relay_made(
    alloc: Global,
    relay: &mut RelayHandle,
    revision: u64,
    made: &mut usize,
    read: &mut usize,
) -> u32
    ensures made { result ≡ 0 → Between (λ old new.
        TellsAnswers opaque_service request_size old.server revision new.server)
        relay.old.owned.state relay.new.owned.state }
    ensures counts { result ≡ 0 → KeepsState (λ new. (made.new ≡ length new.server.made.items)
        × (read.new ≡ length new.server.read.items)) relay.new.owned.state }
    ensures refused { result ≢ 0 → RefusesRelay RefusesOutcome result relay.old.owned.state relay.new.owned.state }
{
    if !relay.full {
        return WRONG_HANDLE;
    }
    calls::made(
        alloc,
        &mut relay.owned.state_mut().server,
        revision,
        made,
        read,
    )
}

/// Writes the answer at this place to a request that was made: its place among the shard's requests.
#[unsafe(no_mangle)]
pub extern "C" fn durkenzo_relay_answer(
    relay: &mut RelayHandle,
    at: usize,
    answer: &mut PlaceAnswer,
) -> u32
    ensures told { result ≡ 0 → KeepsState (IsPlaceMade at answer.new) relay.old.owned.state }
    ensures unchanged { relay.new.owned.state ≡ relay.old.owned.state }
    ensures refused { result ≢ 0 → RefusesServer (LacksPlace at) result relay.old.owned.state }
{
    if !relay.full {
        return WRONG_HANDLE;
    }
    answer_in(relay.owned.state_mut(), at, answer)
}

/// Writes the answer at this place to a read: how many requests were made before it. The caller must answer it by its
/// state after exactly those.
#[unsafe(no_mangle)]
pub extern "C" fn durkenzo_relay_read_answer(
    relay: &mut RelayHandle,
    at: usize,
    answer: &mut PlaceAnswer,
) -> u32
    ensures told { result ≡ 0 → KeepsState (IsPlaceRead at answer.new) relay.old.owned.state }
    ensures unchanged { relay.new.owned.state ≡ relay.old.owned.state }
    ensures refused { result ≢ 0 → RefusesServer (LacksPlaceRead at) result relay.old.owned.state }
{
    if !relay.full {
        return WRONG_HANDLE;
    }
    read_in(relay.owned.state_mut(), at, answer)
}

/// Notes that the compares of the sent transaction didn't hold, or that its outcome isn't known. The server keeps the
/// requests that it has made, but decides nothing until it has read or appended. Requests that it held must then be
/// decided again.
#[unsafe(no_mangle)]
pub extern "C" fn durkenzo_relay_lost(alloc: Global, relay: &mut RelayHandle) -> u32
    ensures made { result ≡ 0 → RelaysOn relay.old.owned.state (λ old input. input ≡ LostInput) IsAny
        relay.new.owned.state }
    ensures refused { result ≢ 0 → (result ≡ WRONG_HANDLE) × (relay.old.owned.state ≡ None) }
    ensures kept { result ≢ 0 → relay.new.owned.state ≡ relay.old.owned.state }
{
    if !relay.full {
        return WRONG_HANDLE;
    }
    calls::lost(alloc, &mut relay.owned.state_mut().server)
}

/// Begins a base of all requests that were made, if none is being made and there are batches that the last one doesn't
/// replace. `begins` says whether its parts must be written now.
#[unsafe(no_mangle)]
pub extern "C" fn durkenzo_relay_base(
    alloc: Global,
    relay: &mut RelayHandle,
    begins: &mut bool,
) -> u32
    ensures made { result ≡ 0 → RelaysOn relay.old.owned.state (λ old input. input ≡ BaseInput)
        (λ output. is_basing output ≡ begins.new) relay.new.owned.state }
    ensures refused { result ≢ 0 → RefusesRelay RefusesMemory result relay.old.owned.state relay.new.owned.state }
{
    if !relay.full {
        return WRONG_HANDLE;
    }
    calls::base(alloc, &mut relay.owned.state_mut().server, begins)
}

/// Writes the value for the key of the part at this place of the base.
#[unsafe(no_mangle)]
pub extern "C" fn durkenzo_relay_part(
    alloc: Global,
    relay: &mut RelayHandle,
    place: usize,
    part: &mut PartNumbers,
    into: &mut [u8],
) -> u32
    ensures written { result ≡ 0 → KeepsState (λ relay.
        WritesPart opaque_service place_bytes place part.new into.new relay.server) relay.old.owned.state }
    ensures unchanged { relay.new.owned.state ≡ relay.old.owned.state }
    ensures refused { result ≢ 0 → RefusesServer (λ code kept. RefusesPart code) result relay.old.owned.state }
{
    if !relay.full {
        return WRONG_HANDLE;
    }
    calls::part(alloc, &relay.owned.state_mut().server, place, part, into)
}

/// Tells the handle that each part of the base was put, so that the next transaction names it.
#[unsafe(no_mangle)]
pub extern "C" fn durkenzo_relay_parts_made(alloc: Global, relay: &mut RelayHandle) -> u32
    ensures made { result ≡ 0 → RelaysOn relay.old.owned.state (λ old input. input ≡ PartsInput) IsAny
        relay.new.owned.state }
    ensures refused { result ≢ 0 → (result ≡ WRONG_HANDLE) × (relay.old.owned.state ≡ None) }
    ensures kept { result ≢ 0 → relay.new.owned.state ≡ relay.old.owned.state }
{
    if !relay.full {
        return WRONG_HANDLE;
    }
    calls::parts_made(alloc, &mut relay.owned.state_mut().server)
}

/// Writes to `behind` whether the base that the head names has replaced the batch with this number; or, if `is_part`,
/// the part at this place of the base with this number. Then that must be deleted.
#[unsafe(no_mangle)]
pub extern "C" fn durkenzo_relay_is_behind(
    alloc: Global,
    relay: &mut RelayHandle,
    is_part: bool,
    number: u64,
    place: u64,
    behind: &mut bool,
) -> u32
    ensures made { result ≡ 0 → RelaysOn relay.old.owned.state
        (λ old input. input ≡ ClearInput (passing_key old.server.core.shard is_part number place))
        (λ output. is_clearing output ≡ behind.new) relay.new.owned.state }
    ensures refused { result ≢ 0 → (result ≡ WRONG_HANDLE) × (relay.old.owned.state ≡ None) }
    ensures kept { result ≢ 0 → relay.new.owned.state ≡ relay.old.owned.state }
{
    if !relay.full {
        return WRONG_HANDLE;
    }
    let relay = relay.owned.state_mut();
    calls::is_behind(alloc, &mut relay.server, is_part, number, place, behind)
}

/// Writes how many clients' last requests the server keeps: none before it has read.
#[unsafe(no_mangle)]
pub extern "C" fn durkenzo_relay_clients(relay: &mut RelayHandle, clients: &mut usize) -> u32
    ensures told { result ≡ 0 → KeepsState (λ relay. clients.new ≡ clients_kept relay.server.core.ready)
        relay.old.owned.state }
    ensures refused { result ≢ 0 → (result ≡ WRONG_HANDLE) × (relay.old.owned.state ≡ None) }
    ensures unchanged { relay.new.owned.state ≡ relay.old.owned.state }
{
    if !relay.full {
        return WRONG_HANDLE;
    }
    *clients = relay.owned.state_mut().server.core.clients();
    0
}

/// Writes how many requests were made, which is the place of the next one: 0 before the server has read.
#[unsafe(no_mangle)]
pub extern "C" fn durkenzo_relay_count(relay: &mut RelayHandle, count: &mut u64) -> u32
    ensures told { result ≡ 0 → KeepsState (λ relay. count.new ≡ requests_made relay.server.core.ready)
        relay.old.owned.state }
    ensures refused { result ≢ 0 → (result ≡ WRONG_HANDLE) × (relay.old.owned.state ≡ None) }
    ensures unchanged { relay.new.owned.state ≡ relay.old.owned.state }
{
    if !relay.full {
        return WRONG_HANDLE;
    }
    *count = relay.owned.state_mut().made();
    0
}

/// Drops the server that the handle keeps.
#[unsafe(no_mangle)]
pub extern "C" fn durkenzo_relay_close(alloc: Global, relay: &mut RelayHandle)
    ensures { relay.new.owned.state ≡ None }
{
    relay.close(alloc);
}

// Writes the answer at this place to a request that was made.
fn answer_in(relay: &RelayServer, at: usize, answer: &mut PlaceAnswer) -> u32
    ensures told { result ≡ 0 → IsPlaceMade at answer.new relay.now }
    ensures refused { result ≢ 0 → LacksPlace at result relay.now }
{
    let Some(made) = relay.server.made.get(at) else {
        return NO_MORE;
    };
    *answer = PlaceAnswer {
        client: made.client,
        number: made.number,
        place: made.reply,
    };
    0
}

// Writes the answer at this place to a read.
fn read_in(relay: &RelayServer, at: usize, answer: &mut PlaceAnswer) -> u32
    ensures told { result ≡ 0 → IsPlaceRead at answer.new relay.now }
    ensures refused { result ≢ 0 → LacksPlaceRead at result relay.now }
{
    match relay.server.read.get(at) {
        Some(read) => tell_read(read, answer),
        None => NO_MORE,
    }
}

fn tell_read(read: &ReadReply<u64>, answer: &mut PlaceAnswer) -> u32
    ensures told { result ≡ 0 → TellsPlace read.now answer.new }
    ensures refused { result ≢ 0 → (result ≡ NO_MORE) × (read.now.answer ≡ None) }
{
    let Some(found) = &read.answer else {
        return NO_MORE;
    };
    *answer = PlaceAnswer {
        client: read.client,
        number: read.number,
        place: found.reply,
    };
    0
}
