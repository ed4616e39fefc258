ghost use Rattle.std.specs.Prelude.{◌≡◌, ◌<◌, ◌↔◌, [], IfErr, IfOk, IfSome, IsOk, IsSome, OnOk};
ghost use Rattle.sm_shard.specs.declared.steps.ShardInput.TheVariants.{Base as BaseInput, Clear as ClearInput};
ghost use Rattle.sm_shard.specs.declared.steps.ShardInput.TheVariants.{Flush as FlushInput, Lost as LostInput};
ghost use Rattle.sm_shard.specs.declared.steps.ShardInput.TheVariants.{PartsMade as PartsInput};
ghost use Rattle.sm_shard.specs.declared.steps.ShardOutput.TheVariants.{Decided};
ghost use Rattle.sm_shard_bytes.specs.Refusals.{CannotSend, IsOfBytes, IsWithoutBytes, RefusesAppend};
ghost use Rattle.sm_shard_bytes.specs.Refusals.{RefusesBytes, RefusesMemory, RefusesOutcome, RefusesReadAll};
ghost use Rattle.sm_shard_bytes.specs.Servers.{AddsBatch, AddsPart, DoneOn, IsAny, IsAppending, IsComing, IsNewServer};
ghost use Rattle.sm_shard_bytes.specs.Servers.{IsPartOf, IsReading, IsRecordReading, SpellsSending, TellsAnswers};
ghost use Rattle.sm_shard_bytes.specs.Servers.{is_basing, is_clearing, is_sending};

use crate::inputs;
use crate::part_numbers::PartNumbers;
use crate::parts::{read_base_part, write_base_part};
use crate::reply_bytes::ReplyBytes;
use crate::sending::spelled;
use crate::sent_bytes::SentBytes;
use crate::server_fault::ServerFault;
use sm_codec::{ReadError, read_batch, read_head, read_record};
use sm_ranges::server_id::ServerId;
use sm_ranges::shard_id::ShardId;
use sm_shard::{
    BasePart, Decision, MadeReply, ReadReply, ShardInput, ShardLimits, ShardOutput, ShardServer,
    StoreMachine, step,
};
use sm_store::item::Item;
use sm_store::store_key::PassingKey;
use std::alloc::Global;

/// A server of one shard whose requests are bytes, its readings, and its answers.
#[derive(Drop)]
pub struct ByteServer<M, R> {
    pub core: ShardServer<M, Vec<u8>, R>,
    /// The parts of the base that were read.
    pub parts: Vec<BasePart<R>>,
    /// The batches that were read.
    pub batches: Vec<Vec<Item<Vec<u8>>>>,
    /// The answers of the last transaction that was made, and to the reads that it carried.
    pub made: Vec<MadeReply<R>>,
    pub read: Vec<ReadReply<R>>,
}

impl<R: ReplyBytes, M: StoreMachine<Vec<u8>, R>> ByteServer<M, R> {
    /// Makes a server that has just started. Returns nothing if the store doesn't have so many shards.
    pub fn new(
        alloc: Global,
        me: ServerId,
        shard: ShardId,
        count: u64,
        limits: ShardLimits,
    ) -> Option<ByteServer<M, R>>
        ensures made { IfSome result (IsNewServer M.service me shard count limits) }
        ensures exact { IsSome result ↔ shard < count }
    {
        match ShardServer::new(me, shard, count, limits) {
            Some(core) => Some(ByteServer {
                core,
                parts: Vec::new(alloc),
                batches: Vec::new(alloc),
                made: Vec::new(alloc),
                read: Vec::new(alloc),
            }),
            None => None,
        }
    }

    /// Adds a batch to the readings, before `read`.
    pub fn add_batch(&mut self, alloc: Global, bytes: &[u8]) -> Result<(), ServerFault>
        ensures core { self.new.core ≡ self.old.core }
        ensures parts { self.new.parts ≡ self.old.parts }
        ensures added { OnOk result (AddsBatch self.old.batches.items bytes.now self.new.batches.items) }
        ensures refused { IfErr result (λ fault. RefusesBytes fault self.old self.new) }
    {
        match read_batch(alloc, bytes) {
            Ok(batch) => {
                self.batches.push(batch.items)?;
                Ok(())
            }
            Err(error) => Err(fault_of(error)),
        }
    }

    /// Adds a part of the base to the readings, before `read`.
    pub fn add_part(&mut self, alloc: Global, bytes: &[u8]) -> Result<(), ServerFault>
        ensures core { self.new.core ≡ self.old.core }
        ensures batches { self.new.batches ≡ self.old.batches }
        ensures added { OnOk result (AddsPart R.spelled self.old.parts.items bytes.now self.new.parts.items) }
        ensures refused { IfErr result (λ fault. RefusesBytes fault self.old self.new) }
    {
        match read_base_part(alloc, bytes) {
            Ok(Some(part)) => {
                self.parts.push(part)?;
                Ok(())
            }
            Ok(None) => Err(ServerFault::Reply),
            Err(error) => Err(fault_of(error)),
        }
    }

    /// The shard was read: its record and the head of its log by these bytes, with their revisions, and the parts and
    /// the batches that were added.
    pub fn read(
        &mut self,
        alloc: Global,
        standing: &[u8],
        stood: u64,
        head: &[u8],
        logged: u64,
    ) -> Result<(), ServerFault>
        ensures read { OnOk result (DoneOn M.service M.size self.old
            (IsReading self.old standing.now stood head.now logged) IsAny self.new) }
        ensures refused { IfErr result (λ fault. RefusesReadAll fault self.old self.new) }
    {
        let parts = std::mem::replace(&mut self.parts, Vec::new(alloc));
        let batches = std::mem::replace(&mut self.batches, Vec::new(alloc));
        let stored = match read_record(standing) {
            Ok(stored) => stored,
            Err(error) => return Err(fault_of(error)),
        };
        let head = match read_head(head) {
            Ok(head) => head,
            Err(error) => return Err(fault_of(error)),
        };
        let input = ShardInput::Read {
            state: stored.state,
            stood,
            head,
            logged,
            parts: &parts,
            batches: &batches,
        };
        let _output = step(alloc, &mut self.core, input)?;
        Ok(())
    }

    /// Notes that the shard was read from the end of the server's replica on: its record and the head of its log with
    /// these bytes, with their revisions, and the batches that were added. Requests that were sent or wait must be
    /// decided again.
    pub fn append(
        &mut self,
        alloc: Global,
        standing: &[u8],
        stood: u64,
        head: &[u8],
        logged: u64,
    ) -> Result<(), ServerFault>
        ensures read { OnOk result (DoneOn M.service M.size self.old
            (IsAppending self.old standing.now stood head.now logged) IsAny self.new) }
        ensures refused { IfErr result (λ fault. RefusesAppend fault self.old self.new) }
    {
        let batches = std::mem::replace(&mut self.batches, Vec::new(alloc));
        let stored = match read_record(standing) {
            Ok(stored) => stored,
            Err(error) => return Err(fault_of(error)),
        };
        let head = match read_head(head) {
            Ok(head) => head,
            Err(error) => return Err(fault_of(error)),
        };
        let input = ShardInput::Append {
            state: stored.state,
            stood,
            head,
            logged,
            batches: &batches,
        };
        let _output = step(alloc, &mut self.core, input)?;
        Ok(())
    }

    /// Notes that only the shard's record was read. Requests that wait must be decided again.
    pub fn record(&mut self, alloc: Global, standing: &[u8], stood: u64) -> Result<(), ServerFault>
        ensures read { OnOk result (DoneOn M.service M.size self.old
            (IsRecordReading standing.now stood) IsAny self.new) }
        ensures refused { IfErr result (λ fault. RefusesBytes fault self.old self.new) }
    {
        let stored = match read_record(standing) {
            Ok(stored) => stored,
            Err(error) => return Err(fault_of(error)),
        };
        let input = inputs::record_read(stored.state, stood);
        let _output = step(alloc, &mut self.core, input)?;
        Ok(())
    }

    /// Takes a request, which only reads or is made. The next transaction answers a request that only reads.
    pub fn take(
        &mut self,
        alloc: Global,
        reads: bool,
        item: Item<Vec<u8>>,
    ) -> Result<Decision<R>, ServerFault>
        ensures decided { IfOk result (λ decision. DoneOn M.service M.size self.old (IsComing reads item)
            (λ output. output ≡ Decided decision) self.new) }
        ensures refused { IfErr result (λ fault. RefusesMemory fault self.old self.new) }
    {
        let input = inputs::coming(reads, item);
        let output = step(alloc, &mut self.core, input)?;
        match &output {
            ShardOutput::Decided(decision) => Ok(*decision),
            _ => Err(ServerFault::Unread),
        }
    }

    /// Makes waiting requests ready to be sent. Returns whether there is anything to send now.
    pub fn flush(&mut self, alloc: Global) -> Result<bool, ServerFault>
        ensures sends { IfOk result (λ sends. DoneOn M.service M.size self.old (λ input. input ≡ FlushInput)
            (λ output. is_sending output ≡ sends) self.new) }
        ensures refused { IfErr result (λ fault. RefusesMemory fault self.old self.new) }
    {
        let output = step(alloc, &mut self.core, inputs::flush())?;
        Ok(is_sending(&output))
    }

    /// Returns the compares and the writes of the transaction that was sent.
    pub fn sending(&self, alloc: Global) -> Result<SentBytes, ServerFault>
        ensures spelled { IfOk result (SpellsSending M.service self.now) }
        ensures refused { IfErr result (λ fault. CannotSend fault self.now) }
    {
        match self.core.sending() {
            Some(sending) => spelled(alloc, &sending),
            None => Err(ServerFault::Unread),
        }
    }

    /// Notes that the transaction was made at this revision, or has held there if it only compares. The answers are
    /// kept.
    pub fn on_made(&mut self, alloc: Global, revision: u64) -> Result<(), ServerFault>
        ensures told { OnOk result (TellsAnswers M.service M.size self.old revision self.new) }
        ensures refused { IfErr result (λ fault. RefusesOutcome fault self.old self.new) }
    {
        let output = step(alloc, &mut self.core, inputs::made(revision))?;
        match output {
            ShardOutput::Answers(answers) => {
                self.made = answers.made;
                self.read = answers.read;
                Ok(())
            }
            _ => Err(ServerFault::Unread),
        }
    }

    /// Notes that its compares didn't hold, or that its outcome isn't known. The server must read again, or append the
    /// batches that it hasn't read, and requests that it held must be decided again. Readings that were added and not
    /// used are dropped.
    pub fn on_lost(&mut self, alloc: Global) -> Result<(), ServerFault>
        ensures lost { OnOk result (DoneOn M.service M.size self.old (λ input. input ≡ LostInput) IsAny self.new) }
        ensures let_go { OnOk result ((self.new.parts.items ≡ []) × (self.new.batches.items ≡ [])) }
        ensures sure { IsOk result }
    {
        self.parts = Vec::new(alloc);
        self.batches = Vec::new(alloc);
        let _output = step(alloc, &mut self.core, inputs::lost())?;
        Ok(())
    }

    /// Begins a base, if one is due. Returns whether its parts must be written now.
    pub fn begin_base(&mut self, alloc: Global) -> Result<bool, ServerFault>
        ensures begun { IfOk result (λ begins. DoneOn M.service M.size self.old (λ input. input ≡ BaseInput)
            (λ output. is_basing output ≡ begins) self.new) }
        ensures refused { IfErr result (λ fault. RefusesMemory fault self.old self.new) }
    {
        let output = step(alloc, &mut self.core, inputs::base())?;
        Ok(is_basing(&output))
    }

    /// Returns the part at this place of the base that the server makes. Returns nothing if it makes none, or if that
    /// has no such part.
    pub fn part(
        &self,
        alloc: Global,
        place: usize,
    ) -> Result<Option<(PartNumbers, Vec<u8>)>, ServerFault>
        ensures found { IfOk result (λ found. IfSome found (λ part.
            IsPartOf M.service R.spelled self.now place part.0 part.1.items)) }
        ensures refused { IfErr result IsWithoutBytes }
    {
        let Some(sending) = self.core.parts() else {
            return Ok(None);
        };
        let Some(part) = sending.parts.get(place) else {
            return Ok(None);
        };
        let Some(bytes) = write_base_part(alloc, part)? else {
            return Err(ServerFault::TooLarge);
        };
        let numbers = PartNumbers {
            number: sending.number,
            count: sending.parts.len() as u64,
            length: bytes.len(),
        };
        Ok(Some((numbers, bytes)))
    }

    /// Each part of the base was written, so the next transaction names it.
    pub fn on_parts_made(&mut self, alloc: Global) -> Result<(), ServerFault>
        ensures noted { OnOk result (DoneOn M.service M.size self.old (λ input. input ≡ PartsInput) IsAny self.new) }
        ensures sure { IsOk result }
    {
        let _output = step(alloc, &mut self.core, inputs::parts_made())?;
        Ok(())
    }

    /// Returns whether the base that the head names has replaced the value at the key, which must then be deleted.
    pub fn clears(&mut self, alloc: Global, key: PassingKey) -> Result<bool, ServerFault>
        ensures told { IfOk result (λ clears. DoneOn M.service M.size self.old (λ input. input ≡ ClearInput key)
            (λ output. is_clearing output ≡ clears) self.new) }
        ensures sure { IsOk result }
    {
        let output = step(alloc, &mut self.core, inputs::clear(key))?;
        Ok(is_clearing(&output))
    }
}

// Why bytes weren't read.
fn fault_of(error: ReadError) -> ServerFault
    ensures { IsOfBytes result }
{
    match error {
        ReadError::Memory => ServerFault::Memory,
        ReadError::Fault(fault) => ServerFault::Bytes(fault),
    }
}

fn is_sending<R: ReplyBytes>(output: &ShardOutput<Vec<u8>, R>) -> bool
    ensures { is_sending output.now ≡ result }
{
    matches!(output, ShardOutput::Sends)
}

fn is_basing<R: ReplyBytes>(output: &ShardOutput<Vec<u8>, R>) -> bool
    ensures { is_basing output.now ≡ result }
{
    matches!(output, ShardOutput::Bases)
}

fn is_clearing<R: ReplyBytes>(output: &ShardOutput<Vec<u8>, R>) -> bool
    ensures { is_clearing output.now ≡ result }
{
    matches!(output, ShardOutput::Clears(_))
}
