//! A server's core over a shared store, for callers in C, C++, Python and Rust: its decisions, transactions and
//! answers, without any input or output of its own. The caller reads the store, sends the transactions and tells their
//! outcomes. Each call answers 0, or a code of library/codes.txt. If a call is refused, the handle is as it was, except
//! that a refused reading or outcome can leave a server that has read nothing, which must then read the shard. A handle
//! must begin as bytes of 0. It may pass from thread to thread, and is used by one call at a time.
#![tactic(auto)]

ghost use Rattle.std.specs.Prelude.{◌≡◌, ◌≢◌, ◌-◌, ◌^◌, false, true, None, length, min};
ghost use Rattle.sm_codec.specs.Spelling.{head_bytes};
ghost use Rattle.sm_shard.specs.declared.steps.ShardInput.TheVariants.{Base as BaseInput, Clear as ClearInput};
ghost use Rattle.sm_shard.specs.declared.steps.ShardInput.TheVariants.{Flush as FlushInput, Lost as LostInput};
ghost use Rattle.sm_shard.specs.declared.steps.ShardInput.TheVariants.{PartsMade as PartsInput};
ghost use Rattle.sm_shard.specs.Decisions.{batches_made, clients_kept};
ghost use Rattle.sm_shard_bytes.specs.Calls.{Between, IsDecidedAs, IsRequestInput, KeepsState, WritesPart};
ghost use Rattle.sm_shard_bytes.specs.Calls.{WritesSending, is_decided};
ghost use Rattle.sm_shard_bytes.specs.Refusals.{IsUnmade, LeavesState, RefusesAppend, RefusesBytes};
ghost use Rattle.sm_shard_bytes.specs.Refusals.{RefusesMemory, RefusesOutcome, RefusesPart, RefusesReadAll};
ghost use Rattle.sm_shard_bytes.specs.Refusals.{RefusesRequest, RefusesSending, RefusesServer};
ghost use Rattle.sm_shard_bytes.specs.Servers.{AddsBatch, AddsPart, IsAny, IsAppending, IsReading, IsRecordReading};
ghost use Rattle.sm_shard_bytes.specs.Servers.{TellsAnswers, is_basing, is_clearing, is_sending, passing_key};
ghost use Rattle.sm_shard_bytes.specs.Servers.{request_size};
ghost use Rattle.sm_texts.specs.Replies.{reply_bytes};
ghost use Rattle.sm_texts.specs.Saves.{texts_service};
ghost use Rattle.sm_texts.specs.Texts.{is_read};
ghost use Rattle.sm_driver.specs.Calls.{IsMadeAnswer, IsReadAnswer, LacksRoom, MakesOn, ScansKeys, ScansNothing};
ghost use Rattle.sm_driver.specs.Calls.{LacksMade, LacksRead, LacksText, RefusesTexts, TellsRead};
ghost use Rattle.sm_driver.specs.Servers.{IsNewTexts, keys_held};

pub mod key_numbers;
mod owned_server;
pub mod server_handle;
pub mod text_answer;
pub mod text_server;

pub use key_numbers::KeyNumbers;
pub use server_handle::ServerHandle;
use sm_ranges::server_id::ServerId;
use sm_ranges::shard_id::ShardId;
use sm_shard::{ReadReply, ShardLimits};
use sm_shard_bytes::codes::{
    BAD_ARGUMENT, BAD_BYTES, NO_MEMORY, NO_MORE, TOO_SHORT, UNKNOWN_SHARD, WRONG_HANDLE,
};
use sm_shard_bytes::written::write;
use sm_shard_bytes::{ForwardNumbers, LogHead, PartNumbers, SentNumbers, calls};
use sm_texts::TextReply;
use sm_texts::store_texts::is_read;
use std::alloc::Global;
pub use text_answer::TextAnswer;
pub use text_server::TextServer;

/// Makes a server of the shard, one of so many, that has read nothing yet. A batch takes at most so many bytes and
/// requests, at most so many requests wait, and the last request of so many clients is kept. The handle keeps the
/// server, in place of its earlier state.
#[unsafe(no_mangle)]
pub extern "C" fn durkenzo_server(
    alloc: Global,
    server: &mut ServerHandle,
    me: u16,
    shard: u16,
    count: u64,
    batch_bytes: u64,
    batch_requests: usize,
    waiting: usize,
    clients: usize,
) -> u32
    ensures made { result ≡ 0 → KeepsState (IsNewTexts me shard count (record {
      batch_bytes = batch_bytes;
      batch_requests = batch_requests;
      waiting = waiting;
      clients = clients;
    })) server.new.owned.state }
    ensures kept { result ≢ 0 → server.new.owned.state ≡ server.old.owned.state }
    ensures refused { result ≢ 0 → IsUnmade me shard count result }
{
    let Some(me) = ServerId::new(me) else {
        return BAD_ARGUMENT;
    };
    let Some(shard) = ShardId::new(shard) else {
        return UNKNOWN_SHARD;
    };
    let limits = ShardLimits {
        batch_bytes,
        batch_requests,
        waiting,
        clients,
    };
    let Some(made) = TextServer::new(alloc, me, shard, count, limits) else {
        return UNKNOWN_SHARD;
    };
    match server.keep(alloc, made) {
        Ok(()) => 0,
        Err(_) => NO_MEMORY,
    }
}

/// Adds the next batch that was read, in the order of their numbers, before `durkenzo_server_read` or
/// `durkenzo_server_append`.
#[unsafe(no_mangle)]
pub extern "C" fn durkenzo_server_batch(
    alloc: Global,
    server: &mut ServerHandle,
    bytes: &[u8],
) -> u32
    ensures made { result ≡ 0 → Between (λ old new. (new.server.core ≡ old.server.core)
        × (new.server.parts ≡ old.server.parts)
        × AddsBatch old.server.batches.items bytes.now new.server.batches.items)
        server.old.owned.state server.new.owned.state }
    ensures refused { result ≢ 0 → RefusesTexts RefusesBytes result server.old.owned.state server.new.owned.state }
{
    if !server.full {
        return WRONG_HANDLE;
    }
    calls::batch(alloc, &mut server.owned.state_mut().server, bytes)
}

/// Adds the next part that was read of the base, in the order of their places, before `durkenzo_server_read`.
#[unsafe(no_mangle)]
pub extern "C" fn durkenzo_server_part_read(
    alloc: Global,
    server: &mut ServerHandle,
    bytes: &[u8],
) -> u32
    ensures made { result ≡ 0 → Between (λ old new. (new.server.core ≡ old.server.core)
        × (new.server.batches ≡ old.server.batches)
        × AddsPart reply_bytes old.server.parts.items bytes.now new.server.parts.items)
        server.old.owned.state server.new.owned.state }
    ensures refused { result ≢ 0 → RefusesTexts RefusesBytes result server.old.owned.state server.new.owned.state }
{
    if !server.full {
        return WRONG_HANDLE;
    }
    calls::part_read(alloc, &mut server.owned.state_mut().server, bytes)
}

/// Reads the bytes at a log's head, which tell the batches and parts that must be read.
#[unsafe(no_mangle)]
pub extern "C" fn durkenzo_log_head_of(bytes: &[u8], head: &mut LogHead) -> u32
    ensures read { result ≡ 0 → bytes.now ≡ head_bytes (record {
      batches = head.new.batches;
      base = head.new.base;
      parts = head.new.parts;
    }) }
    ensures refused { result ≢ 0 → (result ≡ BAD_BYTES) × (head.new ≡ head.old) }
{
    calls::log_head(bytes, head)
}

/// Tells the handle what was read of the shard: the bytes of its record and of the head of its log, with their
/// revisions, and the parts and the batches that were added, which are let go.
#[unsafe(no_mangle)]
pub extern "C" fn durkenzo_server_read(
    alloc: Global,
    server: &mut ServerHandle,
    standing: &[u8],
    stood: u64,
    head: &[u8],
    logged: u64,
) -> u32
    ensures made { result ≡ 0 → MakesOn server.old.owned.state
        (λ old. IsReading old.server standing.now stood head.now logged) IsAny server.new.owned.state }
    ensures refused { result ≢ 0 → RefusesTexts RefusesReadAll result server.old.owned.state server.new.owned.state }
{
    if !server.full {
        return WRONG_HANDLE;
    }
    let texts = server.owned.state_mut();
    calls::read(alloc, &mut texts.server, standing, stood, head, logged)
}

/// Notes that the shard was read from the end of the server's replica on: the bytes of its record and of the head of
/// its log, with their revisions, and the batches that were added, which are dropped. Requests that were sent or wait
/// at the server must be decided again.
#[unsafe(no_mangle)]
pub extern "C" fn durkenzo_server_append(
    alloc: Global,
    server: &mut ServerHandle,
    standing: &[u8],
    stood: u64,
    head: &[u8],
    logged: u64,
) -> u32
    ensures made { result ≡ 0 → MakesOn server.old.owned.state
        (λ old. IsAppending old.server standing.now stood head.now logged) IsAny server.new.owned.state }
    ensures refused { result ≢ 0 → RefusesTexts RefusesAppend result server.old.owned.state server.new.owned.state }
{
    if !server.full {
        return WRONG_HANDLE;
    }
    let texts = server.owned.state_mut();
    calls::append(alloc, &mut texts.server, standing, stood, head, logged)
}

/// Writes how many batches the server has made: none before it has read. The caller must read those after them for
/// `durkenzo_server_append`.
#[unsafe(no_mangle)]
pub extern "C" fn durkenzo_server_batch_count(server: &mut ServerHandle, batches: &mut u64) -> u32
    ensures told { result ≡ 0 → KeepsState (λ texts. batches.new ≡ batches_made texts.server.core.ready)
        server.old.owned.state }
    ensures refused { result ≢ 0 → (result ≡ WRONG_HANDLE) × (server.old.owned.state ≡ None) }
    ensures unchanged { server.new.owned.state ≡ server.old.owned.state }
{
    if !server.full {
        return WRONG_HANDLE;
    }
    *batches = server.owned.state_mut().server.core.batches();
    0
}

/// Notes that only the shard's record was read, or seen by the watch. Requests that wait at the server must be decided
/// again.
#[unsafe(no_mangle)]
pub extern "C" fn durkenzo_server_record(
    alloc: Global,
    server: &mut ServerHandle,
    standing: &[u8],
    stood: u64,
) -> u32
    ensures made { result ≡ 0 → MakesOn server.old.owned.state (λ old. IsRecordReading standing.now stood) IsAny
        server.new.owned.state }
    ensures refused { result ≢ 0 → RefusesTexts RefusesBytes result server.old.owned.state server.new.owned.state }
{
    if !server.full {
        return WRONG_HANDLE;
    }
    calls::record(alloc, &mut server.owned.state_mut().server, standing, stood)
}

/// Takes a request, which came directly (`from` 0) or from that server, forwarded so often. Returns 0 with its reply if
/// it was made; otherwise the code of the decision. Once it is made, clients below `forgets` are forgotten. A request
/// that waits is answered when a transaction is made that was sent later.
#[unsafe(no_mangle)]
pub extern "C" fn durkenzo_server_take(
    alloc: Global,
    server: &mut ServerHandle,
    client: u64,
    number: u64,
    from: u16,
    hops: u8,
    forgets: u64,
    request: &[u8],
    reply: &mut TextReply,
    forward: &mut ForwardNumbers,
) -> u32
    ensures decided { is_decided result ≡ true → MakesOn server.old.owned.state
        (λ old. IsRequestInput (is_read request.now) client number from hops forgets request.now)
        (IsDecidedAs result reply.new forward.new) server.new.owned.state }
    ensures refused { is_decided result ≡ false → LeavesState
        (λ code old new. RefusesRequest from code old.server new.server) result
        server.old.owned.state server.new.owned.state }
{
    if !server.full {
        return WRONG_HANDLE;
    }
    let reads = is_read(request);
    calls::take(
        alloc,
        &mut server.owned.state_mut().server,
        client,
        number,
        from,
        hops,
        forgets,
        reads,
        request,
        reply,
        forward,
    )
}

/// Makes waiting requests ready to be sent, if nothing is under way. `sends` says whether there is something to send
/// now.
#[unsafe(no_mangle)]
pub extern "C" fn durkenzo_server_flush(
    alloc: Global,
    server: &mut ServerHandle,
    sends: &mut bool,
) -> u32
    ensures made { result ≡ 0 → MakesOn server.old.owned.state (λ old input. input ≡ FlushInput)
        (λ output. is_sending output ≡ sends.new) server.new.owned.state }
    ensures refused { result ≢ 0 → RefusesTexts RefusesMemory result server.old.owned.state server.new.owned.state }
{
    if !server.full {
        return WRONG_HANDLE;
    }
    calls::flush(alloc, &mut server.owned.state_mut().server, sends)
}

/// Writes the compares and the writes of the transaction that was sent: its numbers, and the bytes for the head,
/// followed by those for the batch.
#[unsafe(no_mangle)]
pub extern "C" fn durkenzo_server_sending(
    alloc: Global,
    server: &mut ServerHandle,
    numbers: &mut SentNumbers,
    into: &mut [u8],
) -> u32
    ensures written { result ≡ 0 → KeepsState (λ texts.
        WritesSending texts_service numbers.new into.new texts.server) server.old.owned.state }
    ensures unchanged { server.new.owned.state ≡ server.old.owned.state }
    ensures refused { result ≢ 0 → RefusesServer (λ code kept. RefusesSending code kept.server) result
        server.old.owned.state }
{
    if !server.full {
        return WRONG_HANDLE;
    }
    calls::sending(alloc, &server.owned.state_mut().server, numbers, into)
}

/// Notes that the transaction was made at this revision, or has held there if it only compares. There are so many
/// answers to requests that were made, and to reads, which the next calls return.
#[unsafe(no_mangle)]
pub extern "C" fn durkenzo_server_made(
    alloc: Global,
    server: &mut ServerHandle,
    revision: u64,
    made: &mut usize,
    read: &mut usize,
) -> u32
    ensures made { result ≡ 0 → Between (λ old new.
        TellsAnswers texts_service request_size old.server revision new.server)
        server.old.owned.state server.new.owned.state }
    ensures counts { result ≡ 0 → KeepsState (λ new. (made.new ≡ length new.server.made.items)
        × (read.new ≡ length new.server.read.items)) server.new.owned.state }
    ensures refused { result ≢ 0 → RefusesTexts RefusesOutcome result server.old.owned.state server.new.owned.state }
{
    if !server.full {
        return WRONG_HANDLE;
    }
    calls::made(
        alloc,
        &mut server.owned.state_mut().server,
        revision,
        made,
        read,
    )
}

/// Writes the answer at this place to a request that was made.
#[unsafe(no_mangle)]
pub extern "C" fn durkenzo_server_answer(
    server: &mut ServerHandle,
    at: usize,
    answer: &mut TextAnswer,
) -> u32
    ensures told { result ≡ 0 → KeepsState (λ texts. IsMadeAnswer texts at answer.new) server.old.owned.state }
    ensures unchanged { server.new.owned.state ≡ server.old.owned.state }
    ensures refused { result ≢ 0 → RefusesServer (LacksMade at) result server.old.owned.state }
{
    if !server.full {
        return WRONG_HANDLE;
    }
    answer_in(server.owned.state_mut(), at, answer)
}

/// Writes the answer at this place to a read, with its text.
#[unsafe(no_mangle)]
pub extern "C" fn durkenzo_server_text(
    server: &mut ServerHandle,
    at: usize,
    answer: &mut TextAnswer,
    into: &mut [u8],
) -> u32
    ensures told { result ≡ 0 → KeepsState (IsReadAnswer at answer.new into.new) server.old.owned.state }
    ensures unchanged { server.new.owned.state ≡ server.old.owned.state }
    ensures refused { result ≢ 0 → RefusesServer (LacksRead at into.old) result server.old.owned.state }
{
    if !server.full {
        return WRONG_HANDLE;
    }
    text_in(server.owned.state_mut(), at, answer, into)
}

/// Notes that the compares of the sent transaction didn't hold, or that its outcome isn't known. The server keeps the
/// requests that it has made, but decides nothing until it has read or appended. Requests that it held must then be
/// decided again.
#[unsafe(no_mangle)]
pub extern "C" fn durkenzo_server_lost(alloc: Global, server: &mut ServerHandle) -> u32
    ensures made { result ≡ 0 → MakesOn server.old.owned.state (λ old input. input ≡ LostInput) IsAny
        server.new.owned.state }
    ensures refused { result ≢ 0 → (result ≡ WRONG_HANDLE) × (server.old.owned.state ≡ None) }
    ensures kept { result ≢ 0 → server.new.owned.state ≡ server.old.owned.state }
{
    if !server.full {
        return WRONG_HANDLE;
    }
    calls::lost(alloc, &mut server.owned.state_mut().server)
}

/// Begins a base of all requests that were made, if none is being made and there are batches that the last one doesn't
/// replace. `begins` says whether its parts must be written now.
#[unsafe(no_mangle)]
pub extern "C" fn durkenzo_server_base(
    alloc: Global,
    server: &mut ServerHandle,
    begins: &mut bool,
) -> u32
    ensures made { result ≡ 0 → MakesOn server.old.owned.state (λ old input. input ≡ BaseInput)
        (λ output. is_basing output ≡ begins.new) server.new.owned.state }
    ensures refused { result ≢ 0 → RefusesTexts RefusesMemory result server.old.owned.state server.new.owned.state }
{
    if !server.full {
        return WRONG_HANDLE;
    }
    calls::base(alloc, &mut server.owned.state_mut().server, begins)
}

/// Writes the value for the key of the part at this place of the base.
#[unsafe(no_mangle)]
pub extern "C" fn durkenzo_server_part(
    alloc: Global,
    server: &mut ServerHandle,
    place: usize,
    part: &mut PartNumbers,
    into: &mut [u8],
) -> u32
    ensures written { result ≡ 0 → KeepsState (λ texts.
        WritesPart texts_service reply_bytes place part.new into.new texts.server) server.old.owned.state }
    ensures unchanged { server.new.owned.state ≡ server.old.owned.state }
    ensures refused { result ≢ 0 → RefusesServer (λ code kept. RefusesPart code) result server.old.owned.state }
{
    if !server.full {
        return WRONG_HANDLE;
    }
    calls::part(alloc, &server.owned.state_mut().server, place, part, into)
}

/// Tells the handle that each part of the base was put, so that the next transaction names it.
#[unsafe(no_mangle)]
pub extern "C" fn durkenzo_server_parts_made(alloc: Global, server: &mut ServerHandle) -> u32
    ensures made { result ≡ 0 → MakesOn server.old.owned.state (λ old input. input ≡ PartsInput) IsAny
        server.new.owned.state }
    ensures refused { result ≢ 0 → (result ≡ WRONG_HANDLE) × (server.old.owned.state ≡ None) }
    ensures kept { result ≢ 0 → server.new.owned.state ≡ server.old.owned.state }
{
    if !server.full {
        return WRONG_HANDLE;
    }
    calls::parts_made(alloc, &mut server.owned.state_mut().server)
}

/// Writes to `behind` whether the base that the head names has replaced the batch with this number; or, if `is_part`,
/// the part at this place of the base with this number. Then that must be deleted.
#[unsafe(no_mangle)]
pub extern "C" fn durkenzo_server_is_behind(
    alloc: Global,
    server: &mut ServerHandle,
    is_part: bool,
    number: u64,
    place: u64,
    behind: &mut bool,
) -> u32
    ensures made { result ≡ 0 → MakesOn server.old.owned.state
        (λ old input. input ≡ ClearInput (passing_key old.server.core.shard is_part number place))
        (λ output. is_clearing output ≡ behind.new) server.new.owned.state }
    ensures refused { result ≢ 0 → (result ≡ WRONG_HANDLE) × (server.old.owned.state ≡ None) }
    ensures kept { result ≢ 0 → server.new.owned.state ≡ server.old.owned.state }
{
    if !server.full {
        return WRONG_HANDLE;
    }
    let texts = server.owned.state_mut();
    calls::is_behind(alloc, &mut texts.server, is_part, number, place, behind)
}

/// Writes how many clients' last requests the server keeps: none before it has read.
#[unsafe(no_mangle)]
pub extern "C" fn durkenzo_server_clients(server: &mut ServerHandle, clients: &mut usize) -> u32
    ensures told { result ≡ 0 → KeepsState (λ texts. clients.new ≡ clients_kept texts.server.core.ready)
        server.old.owned.state }
    ensures refused { result ≢ 0 → (result ≡ WRONG_HANDLE) × (server.old.owned.state ≡ None) }
    ensures unchanged { server.new.owned.state ≡ server.old.owned.state }
{
    if !server.full {
        return WRONG_HANDLE;
    }
    *clients = server.owned.state_mut().server.core.clients();
    0
}

/// Writes how many keys there are after all requests that were made; 2^64 - 1 if there are more, and 0 before the
/// server has read.
#[unsafe(no_mangle)]
pub extern "C" fn durkenzo_server_keys(server: &mut ServerHandle, keys: &mut u64) -> u32
    ensures told { result ≡ 0 → KeepsState (λ texts. keys.new ≡ min (keys_held texts.server.core.ready) (2 ^ 64 - 1))
        server.old.owned.state }
    ensures refused { result ≢ 0 → (result ≡ WRONG_HANDLE) × (server.old.owned.state ≡ None) }
    ensures unchanged { server.new.owned.state ≡ server.old.owned.state }
{
    if !server.full {
        return WRONG_HANDLE;
    }
    let count = server.owned.state_mut().count();
    *keys = count.min(u128::from(u64::MAX)) as u64;
    0
}

/// Writes the first keys from `low` on and below `high`, at most `most`, after all requests that were made, in their
/// order, each behind its length in 8 bytes; none before the server has read.
#[unsafe(no_mangle)]
pub extern "C" fn durkenzo_server_scan(
    alloc: Global,
    server: &mut ServerHandle,
    low: &[u8],
    high: &[u8],
    most: usize,
    numbers: &mut KeyNumbers,
    into: &mut [u8],
) -> u32
    ensures told { result ≡ 0 → KeepsState (ScansKeys low.now high.now most numbers.new into.new)
        server.old.owned.state }
    ensures refused { result ≢ 0 → ScansNothing low.now high.now most into.old result server.old.owned.state }
    ensures unchanged { server.new.owned.state ≡ server.old.owned.state }
{
    if !server.full {
        return WRONG_HANDLE;
    }
    keys_in(
        alloc,
        server.owned.state_mut(),
        low,
        high,
        most,
        numbers,
        into,
    )
}

/// Drops the server that the handle keeps.
#[unsafe(no_mangle)]
pub extern "C" fn durkenzo_server_close(alloc: Global, server: &mut ServerHandle)
    ensures { server.new.owned.state ≡ None }
{
    server.close(alloc);
}

// Writes the keys of the server from low on and below high, at most so many.
fn keys_in(
    alloc: Global,
    server: &TextServer,
    low: &[u8],
    high: &[u8],
    most: usize,
    numbers: &mut KeyNumbers,
    into: &mut [u8],
) -> u32
    ensures told { result ≡ 0 → ScansKeys low.now high.now most numbers.new into.new server.now }
    ensures refused { result ≢ 0 → LacksRoom low.now high.now most into.old result server.now }
{
    match server.keys(alloc, low, high, most) {
        Ok((count, bytes)) => if write(&bytes, into) {
            *numbers = KeyNumbers {
                count,
                length: bytes.len(),
            };
            0
        } else {
            TOO_SHORT
        },
        Err(_) => NO_MEMORY,
    }
}

fn answer_in(texts: &TextServer, at: usize, answer: &mut TextAnswer) -> u32
    ensures told { result ≡ 0 → IsMadeAnswer texts.now at answer.new }
    ensures refused { result ≢ 0 → LacksMade at result texts.now }
{
    let Some(made) = texts.server.made.get(at) else {
        return NO_MORE;
    };
    *answer = TextAnswer {
        client: made.client,
        number: made.number,
        value: made.reply.number,
        length: 0,
        kind: made.reply.kind,
    };
    0
}

fn text_in(texts: &TextServer, at: usize, answer: &mut TextAnswer, into: &mut [u8]) -> u32
    ensures told { result ≡ 0 → IsReadAnswer at answer.new into.new texts.now }
    ensures refused { result ≢ 0 → LacksRead at into.old result texts.now }
{
    match texts.server.read.get(at) {
        Some(read) => tell_read(read, answer, into),
        None => NO_MORE,
    }
}

fn tell_read(read: &ReadReply<TextReply>, answer: &mut TextAnswer, into: &mut [u8]) -> u32
    ensures told { result ≡ 0 → TellsRead read.now answer.new into.new }
    ensures refused { result ≢ 0 → LacksText into.old result read.now }
{
    let Some(found) = &read.answer else {
        return NO_MORE;
    };
    if !write(&found.text, into) {
        return TOO_SHORT;
    }
    *answer = TextAnswer {
        client: read.client,
        number: read.number,
        value: found.reply.number,
        length: found.text.len(),
        kind: found.reply.kind,
    };
    0
}
