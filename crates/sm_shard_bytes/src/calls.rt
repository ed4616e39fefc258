//! The calls on a server, as C makes them. Each returns 0, or a code of library/codes.txt because C has no results, and
//! writes its numbers and bytes to the caller's.
ghost use Rattle.std.specs.Prelude.{◌≡◌, ◌≢◌, ◌⊎◌, ◌++◌, false, true, IfNone, IfOk, IfSome, length};
ghost use Rattle.sm_codec.specs.Spelling.{head_bytes};
ghost use Rattle.sm_ranges.specs.ServerId.{IsServer};
ghost use Rattle.sm_shard.specs.declared.steps.ShardInput.TheVariants.{Base as BaseInput, Clear as ClearInput};
ghost use Rattle.sm_shard.specs.declared.steps.ShardInput.TheVariants.{Flush as FlushInput, Lost as LostInput};
ghost use Rattle.sm_shard.specs.declared.steps.ShardInput.TheVariants.{PartsMade as PartsInput};
ghost use Rattle.sm_shard_bytes.specs.Calls.{ComesFrom, IsDecidedAs, IsRequestInput, WritesPart, WritesSending};
ghost use Rattle.sm_shard_bytes.specs.Calls.{WritesSent, is_decided};
ghost use Rattle.sm_shard_bytes.specs.Refusals.{RefusesAppend, RefusesForFault, RefusesBytes, RefusesMemory};
ghost use Rattle.sm_shard_bytes.specs.Refusals.{RefusesOutcome, RefusesPart, RefusesReadAll, RefusesRequest};
ghost use Rattle.sm_shard_bytes.specs.Refusals.{RefusesSending};
ghost use Rattle.sm_shard_bytes.specs.Servers.{AddsBatch, AddsPart, DoneOn, IsAny, IsAppending, IsReading};
ghost use Rattle.sm_shard_bytes.specs.Servers.{IsRecordReading, TellsAnswers, is_basing, is_clearing, is_sending};
ghost use Rattle.sm_shard_bytes.specs.Servers.{passing_key};

use crate::byte_server::ByteServer;
use crate::codes::{
    BAD_ARGUMENT, BAD_BYTES, NO_MEMORY, NO_MORE, TOO_SHORT, code_of_decision, code_of_fault,
};
use crate::forward_numbers::ForwardNumbers;
use crate::log_head::LogHead;
use crate::part_numbers::PartNumbers;
use crate::reply_bytes::ReplyBytes;
use crate::sent_bytes::SentBytes;
use crate::sent_numbers::SentNumbers;
use crate::written::write;
use sm_codec::read_head;
use sm_ownership::mode::Mode;
use sm_ranges::server_id::ServerId;
use sm_ranges::shard_id::ShardId;
use sm_shard::StoreMachine;
use sm_store::item::Item;
use sm_store::store_key::PassingKey;
use std::alloc::{AllocError, Global};

/// Adds the next batch that was read, in the order of their numbers, before `read` or `append`.
pub fn batch<R: ReplyBytes, M: StoreMachine<Vec<u8>, R>>(
    alloc: Global,
    server: &mut ByteServer<M, R>,
    bytes: &[u8],
) -> u32
    ensures core { server.new.core ≡ server.old.core }
    ensures parts { server.new.parts ≡ server.old.parts }
    ensures added { result ≡ 0 → AddsBatch server.old.batches.items bytes.now server.new.batches.items }
    ensures refused { result ≢ 0 → RefusesForFault RefusesBytes result server.old server.new }
{
    match server.add_batch(alloc, bytes) {
        Ok(()) => 0,
        Err(fault) => code_of_fault(fault),
    }
}

/// Adds the next part that was read of the base, in the order of their places, before `read`.
pub fn part_read<R: ReplyBytes, M: StoreMachine<Vec<u8>, R>>(
    alloc: Global,
    server: &mut ByteServer<M, R>,
    bytes: &[u8],
) -> u32
    ensures core { server.new.core ≡ server.old.core }
    ensures batches { server.new.batches ≡ server.old.batches }
    ensures added { result ≡ 0 → AddsPart R.spelled server.old.parts.items bytes.now server.new.parts.items }
    ensures refused { result ≢ 0 → RefusesForFault RefusesBytes result server.old server.new }
{
    match server.add_part(alloc, bytes) {
        Ok(()) => 0,
        Err(fault) => code_of_fault(fault),
    }
}

/// Reads the bytes at a log's head.
pub fn log_head(bytes: &[u8], head: &mut LogHead) -> u32
    ensures read { result ≡ 0 → bytes.now ≡ head_bytes (record {
      batches = head.new.batches;
      base = head.new.base;
      parts = head.new.parts;
    }) }
    ensures refused { result ≢ 0 → (result ≡ BAD_BYTES) × (head.new ≡ head.old) }
{
    match read_head(bytes) {
        Ok(found) => {
            *head = LogHead {
                batches: found.batches,
                base: found.base,
                parts: found.parts,
            };
            0
        }
        Err(_) => BAD_BYTES,
    }
}

/// Notes that the shard was read: the bytes of its record and of the head of its log, with their revisions, and the
/// parts and the batches that were added, which are let go.
pub fn read<R: ReplyBytes, M: StoreMachine<Vec<u8>, R>>(
    alloc: Global,
    server: &mut ByteServer<M, R>,
    standing: &[u8],
    stood: u64,
    head: &[u8],
    logged: u64,
) -> u32
    ensures read { result ≡ 0 → DoneOn M.service M.size server.old
        (IsReading server.old standing.now stood head.now logged) IsAny server.new }
    ensures refused { result ≢ 0 → RefusesForFault RefusesReadAll result server.old server.new }
{
    match server.read(alloc, standing, stood, head, logged) {
        Ok(()) => 0,
        Err(fault) => code_of_fault(fault),
    }
}

/// Notes that the shard was read from the end of the server's replica on. Requests that were sent or wait must be
/// decided again.
pub fn append<R: ReplyBytes, M: StoreMachine<Vec<u8>, R>>(
    alloc: Global,
    server: &mut ByteServer<M, R>,
    standing: &[u8],
    stood: u64,
    head: &[u8],
    logged: u64,
) -> u32
    ensures appended { result ≡ 0 → DoneOn M.service M.size server.old
        (IsAppending server.old standing.now stood head.now logged) IsAny server.new }
    ensures refused { result ≢ 0 → RefusesForFault RefusesAppend result server.old server.new }
{
    match server.append(alloc, standing, stood, head, logged) {
        Ok(()) => 0,
        Err(fault) => code_of_fault(fault),
    }
}

/// Notes that only the shard's record was read, or seen by the watch.
pub fn record<R: ReplyBytes, M: StoreMachine<Vec<u8>, R>>(
    alloc: Global,
    server: &mut ByteServer<M, R>,
    standing: &[u8],
    stood: u64,
) -> u32
    ensures noted { result ≡ 0 → DoneOn M.service M.size server.old (IsRecordReading standing.now stood) IsAny
        server.new }
    ensures refused { result ≢ 0 → RefusesForFault RefusesBytes result server.old server.new }
{
    match server.record(alloc, standing, stood) {
        Ok(()) => 0,
        Err(fault) => code_of_fault(fault),
    }
}

/// Takes a request, which came directly (`from` 0) or from that server, forwarded so often, and only reads or is made.
/// Returns 0 with its reply if it was made; otherwise the code of the decision.
pub fn take<R: ReplyBytes, M: StoreMachine<Vec<u8>, R>>(
    alloc: Global,
    server: &mut ByteServer<M, R>,
    client: u64,
    number: u64,
    from: u16,
    hops: u8,
    forgets: u64,
    reads: bool,
    request: &[u8],
    reply: &mut R,
    forward: &mut ForwardNumbers,
) -> u32
    ensures decided { is_decided result ≡ true → DoneOn M.service M.size server.old
        (IsRequestInput reads client number from hops forgets request.now)
        (IsDecidedAs result reply.new forward.new) server.new }
    ensures refused { is_decided result ≡ false → RefusesRequest from result server.old server.new }
{
    let Some(mode) = mode_of(from) else {
        return BAD_ARGUMENT;
    };
    let Ok(request) = Vec::from_slice(alloc, request) else {
        return NO_MEMORY;
    };
    let item = Item {
        client,
        number,
        mode,
        hops,
        forgets,
        request,
    };
    match server.take(alloc, reads, item) {
        Ok(decision) => code_of_decision(decision, reply, forward),
        Err(fault) => code_of_fault(fault),
    }
}

/// Makes waiting requests ready to be sent. `sends` says whether there is something to send now.
pub fn flush<R: ReplyBytes, M: StoreMachine<Vec<u8>, R>>(
    alloc: Global,
    server: &mut ByteServer<M, R>,
    sends: &mut bool,
) -> u32
    ensures flushed { result ≡ 0 → DoneOn M.service M.size server.old (λ input. input ≡ FlushInput)
        (λ output. is_sending output ≡ sends.new) server.new }
    ensures refused { result ≢ 0 → RefusesForFault RefusesMemory result server.old server.new }
{
    match server.flush(alloc) {
        Ok(found) => {
            *sends = found;
            0
        }
        Err(fault) => code_of_fault(fault),
    }
}

/// Writes the compares and the writes of the transaction that was sent.
pub fn sending<R: ReplyBytes, M: StoreMachine<Vec<u8>, R>>(
    alloc: Global,
    server: &ByteServer<M, R>,
    numbers: &mut SentNumbers,
    into: &mut [u8],
) -> u32
    ensures written { result ≡ 0 → WritesSending M.service numbers.new into.new server.now }
    ensures refused { result ≢ 0 → RefusesSending result server.now }
{
    match server.sending(alloc) {
        Ok(sent) => write_sent(sent, numbers, into),
        Err(fault) => code_of_fault(fault),
    }
}

fn write_sent(sent: SentBytes, numbers: &mut SentNumbers, into: &mut [u8]) -> u32
    ensures written { result ≡ 0 → WritesSent sent numbers.new into.new }
    ensures refused { result ≢ 0 → (result ≡ NO_MEMORY) ⊎ (result ≡ TOO_SHORT) }
{
    let written = SentNumbers {
        stood: sent.stood,
        logged: sent.logged,
        number: sent.number,
        head_length: sent.head.len(),
        batch_length: sent.batch.len(),
    };
    match joined(sent.head, &sent.batch) {
        Ok(bytes) => if write(&bytes, into) {
            *numbers = written;
            0
        } else {
            TOO_SHORT
        },
        Err(_) => NO_MEMORY,
    }
}

// Returns the bytes, followed by those of the tail.
fn joined(bytes: Vec<u8>, tail: &[u8]) -> Result<Vec<u8>, AllocError>
    ensures { IfOk result (λ all. all.items ≡ bytes.items ++ tail.now) }
{
    let mut all = bytes;
    all.extend_from_slice(tail)?;
    Ok(all)
}

/// Notes that the transaction was made at this revision, or has held there if it only compares. There are so many
/// answers to requests that were made, and to reads.
pub fn made<R: ReplyBytes, M: StoreMachine<Vec<u8>, R>>(
    alloc: Global,
    server: &mut ByteServer<M, R>,
    revision: u64,
    made: &mut usize,
    read: &mut usize,
) -> u32
    ensures told { result ≡ 0 → TellsAnswers M.service M.size server.old revision server.new }
    ensures made { result ≡ 0 → made.new ≡ length server.new.made.items }
    ensures read { result ≡ 0 → read.new ≡ length server.new.read.items }
    ensures refused { result ≢ 0 → RefusesForFault RefusesOutcome result server.old server.new }
{
    match server.on_made(alloc, revision) {
        Ok(()) => {
            *made = server.made.len();
            *read = server.read.len();
            0
        }
        Err(fault) => code_of_fault(fault),
    }
}

/// Notes that the compares of the sent transaction didn't hold, or that its outcome isn't known.
pub fn lost<R: ReplyBytes, M: StoreMachine<Vec<u8>, R>>(
    alloc: Global,
    server: &mut ByteServer<M, R>,
) -> u32
    ensures lost { result ≡ 0 → DoneOn M.service M.size server.old (λ input. input ≡ LostInput) IsAny server.new }
    ensures sure { result ≡ 0 }
{
    match server.on_lost(alloc) {
        Ok(()) => 0,
        Err(fault) => code_of_fault(fault),
    }
}

/// Begins a base of all requests that were made, if one is due. `begins` says whether its parts must be written now.
pub fn base<R: ReplyBytes, M: StoreMachine<Vec<u8>, R>>(
    alloc: Global,
    server: &mut ByteServer<M, R>,
    begins: &mut bool,
) -> u32
    ensures begun { result ≡ 0 → DoneOn M.service M.size server.old (λ input. input ≡ BaseInput)
        (λ output. is_basing output ≡ begins.new) server.new }
    ensures refused { result ≢ 0 → RefusesForFault RefusesMemory result server.old server.new }
{
    match server.begin_base(alloc) {
        Ok(found) => {
            *begins = found;
            0
        }
        Err(fault) => code_of_fault(fault),
    }
}

/// Writes the value for the key of the part at this place of the base.
pub fn part<R: ReplyBytes, M: StoreMachine<Vec<u8>, R>>(
    alloc: Global,
    server: &ByteServer<M, R>,
    place: usize,
    part: &mut PartNumbers,
    into: &mut [u8],
) -> u32
    ensures written { result ≡ 0 → WritesPart M.service R.spelled place part.new into.new server.now }
    ensures refused { result ≢ 0 → RefusesPart result }
{
    match server.part(alloc, place) {
        Ok(Some((numbers, bytes))) => if write(&bytes, into) {
            *part = numbers;
            0
        } else {
            TOO_SHORT
        },
        Ok(None) => NO_MORE,
        Err(fault) => code_of_fault(fault),
    }
}

/// Notes that each part of the base was written, so that the next transaction names it.
pub fn parts_made<R: ReplyBytes, M: StoreMachine<Vec<u8>, R>>(
    alloc: Global,
    server: &mut ByteServer<M, R>,
) -> u32
    ensures noted { result ≡ 0 → DoneOn M.service M.size server.old (λ input. input ≡ PartsInput) IsAny server.new }
    ensures sure { result ≡ 0 }
{
    match server.on_parts_made(alloc) {
        Ok(()) => 0,
        Err(fault) => code_of_fault(fault),
    }
}

/// Writes to `behind` whether the base that the head names has replaced the batch with this number; or, if `is_part`,
/// the part at this place of the base with this number.
pub fn is_behind<R: ReplyBytes, M: StoreMachine<Vec<u8>, R>>(
    alloc: Global,
    server: &mut ByteServer<M, R>,
    is_part: bool,
    number: u64,
    place: u64,
    behind: &mut bool,
) -> u32
    ensures told { result ≡ 0 → DoneOn M.service M.size server.old
        (λ input. input ≡ ClearInput (passing_key server.old.core.shard is_part number place))
        (λ output. is_clearing output ≡ behind.new) server.new }
    ensures sure { result ≡ 0 }
{
    let key = passing_key(server.core.shard, is_part, number, place);
    match server.clears(alloc, key) {
        Ok(found) => {
            *behind = found;
            0
        }
        Err(fault) => code_of_fault(fault),
    }
}

// How a request came: directly for 0, or from this server.
fn mode_of(from: u16) -> Option<Mode>
    ensures comes { IfSome result (ComesFrom from) }
    ensures none { IfNone result ((from ≢ 0) × (IsServer from → ⊥)) }
{
    if from == 0 {
        return Some(Mode::Direct);
    }
    match ServerId::new(from) {
        Some(server) => Some(Mode::Forwarded(server)),
        None => None,
    }
}

// The key of a batch of this number, or of a part of the base of this number.
fn passing_key(shard: ShardId, is_part: bool, number: u64, place: u64) -> PassingKey
    ensures { result ≡ passing_key shard is_part number place }
{
    if is_part {
        PassingKey::Part(shard, number, place)
    } else {
        PassingKey::Batch(shard, number)
    }
}
