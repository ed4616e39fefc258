//! Boards of the sample service.
ghost use Rattle.std.specs.Prelude.{◌≡◌, ◌≢◌};
ghost use Rattle.sm_handle.specs.Maps.{Replied};
ghost use Rattle.sm_handle.specs.Opening.{IsServiceOpened};
ghost use Rattle.sm_handle.specs.Serving.{IsOfBoard, KeepsNoAnswer, KeepsNoEnvelope, MakesCheckpoint, Serves};
ghost use Rattle.sm_handle.specs.Serving.{TellsAnswer};
ghost use Rattle.sm_handle.specs.ServedAs.TheVariants.{Answered, Forward, Refused};
ghost use Rattle.sm_server.specs.declared.refusal.Refusal.{Refusal as RefusalValue};
ghost use Rattle.sm_foreign.specs.Refusals.{OpensNothing};
ghost use Rattle.sm_foreign.specs.declared.open_fault.OpenFault.{OpenFault as OpenFaultValue};
ghost use Rattle.sm_c.specs.Codes.{open_fault_code, refusal_code};
ghost use Rattle.sm_c.specs.Reading.{TellsRecord, refusal_read};
ghost use Rattle.sm_c.specs.Requests.{ComesBack, LeavesShard, SendsNothing, SendsRequest, TellsSent};

use crate::codes::{
    BAD_ARGUMENT, FORWARD, UNKNOWN_SHARD, WRONG_HANDLE, code_of_act, code_of_open, code_of_refusal,
    code_of_request,
};
use crate::read::{read_of, read_of_refusal, tell};
use crate::record_parts::RecordParts;
use crate::requests::request_of;
use crate::sent_parts::SentParts;
use sm_handle::{AnswerParts, Handle, ReplyParts, ServedAs};
use sm_ranges::shard_id::ShardId;
use std::alloc::Global;

/// Opens a board of the sample service with so many shards, each of which is empty and keeps at most `kept` requests
/// until a checkpoint, of so many servers from 1 on, at most `ops` of which restart at once. Generations stay at or
/// below the ceiling. The handle keeps its control, in place of its earlier state.
#[unsafe(no_mangle)]
pub extern "C" fn durkenzo_open_service(
    alloc: Global,
    chief: &mut Handle,
    shards: usize,
    kept: usize,
    servers: u16,
    ops: u16,
    ceiling: u64,
) -> u32
    ensures made { result ≡ 0 → IsServiceOpened chief.new.owned.state shards kept servers ops ceiling }
    ensures refused { result ≢ 0
        → (fault : OpenFaultValue) × OpensNothing shards servers ops ceiling fault × (result ≡ open_fault_code fault) }
    ensures kept { result ≢ 0 → chief.new.owned.state ≡ chief.old.owned.state }
{
    match chief.open_service(alloc, shards, kept, servers, ops, ceiling) {
        Ok(()) => 0,
        Err(fault) => code_of_open(fault),
    }
}

/// Makes an envelope with these parts that carries the request of this kind, with a note of everything that the pass
/// has seen. The envelope's handle keeps it, in place of its earlier state.
#[unsafe(no_mangle)]
pub extern "C" fn durkenzo_envelope(
    alloc: Global,
    pass: &mut Handle,
    envelope: &mut Handle,
    parts: &SentParts,
    kind: u8,
    key: &[u8],
    other: &[u8],
    amount: i64,
) -> u32
    ensures pass { pass.new.owned.state ≡ pass.old.owned.state }
    ensures made { result ≡ 0
        → SendsRequest pass.old.owned.state envelope.new.owned.state parts.now kind key.now other.now amount }
    ensures refused { result ≢ 0
        → SendsNothing pass.old.owned.state parts.now kind key.now other.now amount result }
    ensures kept { result ≢ 0 → envelope.new.owned.state ≡ envelope.old.owned.state }
{
    let Some(sent) = parts.sent() else {
        return BAD_ARGUMENT;
    };
    let request = match request_of(alloc, kind, key, other, amount) {
        Ok(request) => request,
        Err(fault) => return code_of_request(fault),
    };
    match envelope.envelope(alloc, pass, sent, request) {
        Ok(()) => 0,
        Err(fault) => code_of_act(fault),
    }
}

/// Makes the pass's server serve the envelope, by the layout. If it answers, the envelope's handle keeps the answer. If
/// it forwards the envelope, `to` is the next server, and there is one hop more. Otherwise the envelope comes back. If
/// a record refuses it, or another call was faster, writes the record to `read`.
#[unsafe(no_mangle)]
pub extern "C" fn durkenzo_serve(
    pass: &mut Handle,
    layout: &mut Handle,
    envelope: &mut Handle,
    to: &mut u16,
    read: &mut RecordParts,
) -> u32
    requires { IsOfBoard pass.old.owned.state envelope.old.owned.state }
    ensures answered { result ≡ 0 → Serves pass.old.owned.state pass.new.owned.state layout.old.owned.state
        envelope.old.owned.state envelope.new.owned.state Answered }
    ensures forwarded { result ≡ FORWARD → Serves pass.old.owned.state pass.new.owned.state layout.old.owned.state
        envelope.old.owned.state envelope.new.owned.state (Forward to.new) }
    ensures refused { result ≢ 0 → result ≢ FORWARD → ComesBack pass.old.owned.state pass.new.owned.state
        layout.old.owned.state envelope.old.owned.state envelope.new.owned.state read.old read.new result }
    ensures unread { result ≡ 0 → read.new ≡ read.old }
    ensures layout { layout.new.owned.state ≡ layout.old.owned.state }
    ensures unwritten { result ≢ FORWARD → to.new ≡ to.old }
{
    match pass.serve(layout, envelope) {
        Ok(served) => code_of_served(served, to, read),
        Err(fault) => code_of_act(fault),
    }
}

/// Writes the parts of the envelope, but for its request and its note.
#[unsafe(no_mangle)]
pub extern "C" fn durkenzo_sent(envelope: &mut Handle, parts: &mut SentParts) -> u32
    ensures found { result ≡ 0 → TellsSent envelope.old.owned.state parts.new }
    ensures refused { result ≢ 0 → (result ≡ WRONG_HANDLE) × KeepsNoEnvelope envelope.old.owned.state }
    ensures unwritten { result ≢ 0 → parts.new ≡ parts.old }
    ensures unchanged { envelope.new.owned.state ≡ envelope.old.owned.state }
{
    match envelope.sent() {
        Ok(sent) => {
            *parts = SentParts::of(&sent);
            0
        }
        Err(fault) => code_of_act(fault),
    }
}

/// Writes the parts of the answer, and of its reply.
#[unsafe(no_mangle)]
pub extern "C" fn durkenzo_answer(
    answer: &mut Handle,
    parts: &mut AnswerParts,
    reply: &mut ReplyParts,
) -> u32
    ensures found { result ≡ 0
        → TellsAnswer answer.old.owned.state parts.new × Replied answer.old.owned.state reply.new }
    ensures refused { result ≢ 0 → (result ≡ WRONG_HANDLE) × KeepsNoAnswer answer.old.owned.state }
    ensures unwritten { result ≢ 0 → (parts.new ≡ parts.old) × (reply.new ≡ reply.old) }
    ensures unchanged { answer.new.owned.state ≡ answer.old.owned.state }
{
    let made = match answer.answer() {
        Ok(made) => made,
        Err(fault) => return code_of_act(fault),
    };
    match answer.reply() {
        Ok(told) => {
            *parts = made;
            *reply = told;
            0
        }
        Err(fault) => code_of_act(fault),
    }
}

/// Makes the shard's present state its base, under a direct admission of the pass, so that it keeps no requests. If it
/// succeeds, `generation` is the shard's since then. If a record refuses it, or another call was faster, writes the
/// record to `read`.
#[unsafe(no_mangle)]
pub extern "C" fn durkenzo_checkpoint(
    pass: &mut Handle,
    shard: u16,
    generation: &mut u64,
    read: &mut RecordParts,
) -> u32
    ensures made { result ≡ 0 → MakesCheckpoint pass.old.owned.state pass.new.owned.state shard
        generation.new }
    ensures refused { result ≢ 0
        → LeavesShard pass.old.owned.state pass.new.owned.state shard read.old read.new result }
    ensures unread { result ≡ 0 → read.new ≡ read.old }
    ensures unwritten { result ≢ 0 → generation.new ≡ generation.old }
{
    let Some(k) = ShardId::new(shard) else {
        return UNKNOWN_SHARD;
    };
    match pass.checkpoint(k) {
        Ok(left) => {
            *generation = left;
            0
        }
        Err(fault) => {
            tell(read_of(&fault), read);
            code_of_act(fault)
        }
    }
}

// Returns the code of an envelope's outcome, with the next server, or the record by which it was refused.
fn code_of_served(served: ServedAs, to: &mut u16, read: &mut RecordParts) -> u32
    ensures answered { result ≡ 0 → served ≡ Answered }
    ensures forwarded { result ≡ FORWARD → served ≡ Forward to.new }
    ensures refused { result ≢ 0 → result ≢ FORWARD → (refusal : RefusalValue) × (served ≡ Refused refusal)
        × TellsRecord (refusal_read refusal) read.old read.new × (result ≡ refusal_code refusal) }
    ensures unread { result ≡ 0 → read.new ≡ read.old }
    ensures unwritten { result ≢ FORWARD → to.new ≡ to.old }
{
    match served {
        ServedAs::Answered => 0,
        ServedAs::Forward(server) => {
            *to = server.number();
            FORWARD
        }
        ServedAs::Refused(refusal) => {
            tell(read_of_refusal(&refusal), read);
            code_of_refusal(refusal)
        }
    }
}
