ghost use Rattle.std.specs.Prelude.{◌≡◌, ◌<◌, ◌^◌, ℕ, IfOk, Ok, Err};
ghost use Rattle.sm_codec.specs.declared.fault.Fault.{Fault as FaultValue};
ghost use Rattle.sm_codec.specs.declared.fault.Fault.TheVariants.{Word};
ghost use Rattle.sm_codec.specs.declared.stored_record.StoredRecord.{StoredRecord as StoredValue};
ghost use Rattle.sm_codec.specs.Reading.{Decodes, batch_in, head_in, item_in, items_in, pair_in, part_in};
ghost use Rattle.sm_codec.specs.Spelling.{Batch, FitsBatch, FitsHead, batch_bytes, batch_view, head_bytes, item_view};
ghost use Rattle.sm_codec.specs.Spelling.{FitsPart, PartText, item_views, part_bytes, part_view, record_bytes};
ghost use Rattle.sm_ownership.specs.declared.record.Record.{Record as RecordValue};
ghost use Rattle.sm_store.specs.declared.head.Head.{Head as HeadValue};
ghost use Rattle.sm_word.specs.Word.{IsWellFormed, word_of};

use crate::fault::{Fault, ReadError};
use crate::fields::{byte_at, mode_named, server_named, string_of, u32_at, u64_at, version_of};
use crate::stored_batch::StoredBatch;
use crate::stored_part::StoredPart;
use crate::stored_record::StoredRecord;
use sm_store::head::Head;
use sm_store::item::Item;
use sm_word::word::unpack;
use std::alloc::Global;

#[tactic(auto, unfolding(crate::specs::Reading::head_in))]
fn head_of(bytes: &[u8]) -> Result<Head, ReadError>
    ensures { Decodes (λ head. head) result (head_in bytes.now) }
{
    let rest = version_of(bytes)?;
    let (batches, rest) = u64_at(rest)?;
    let (base, rest) = u64_at(rest)?;
    let (parts, rest) = u64_at(rest)?;
    if !rest.is_empty() {
        return Err(ReadError::Fault(Fault::Trailing));
    }
    Ok(Head {
        batches,
        base,
        parts,
    })
}

/// Returns the head that the bytes spell, all of the bytes.
pub fn read_head(bytes: &[u8]) -> Result<Head, ReadError>
    // The bytes that are read are the encoding of the value.
    ensures found { IfOk result (λ head. FitsHead head × (bytes.now ≡ head_bytes head)) }
    // If the bytes are the encoding of a value, it is read.
    ensures only { (head : HeadValue) → FitsHead head → bytes.now ≡ head_bytes head
        → Decodes (λ found. found) result (Ok head) }
    // Which fault it is.
    ensures exact { Decodes (λ head. head) result (head_in bytes.now) }
{
    head_of(bytes)
}

/// Two numbers, which are all of the bytes.
#[tactic(auto, unfolding(crate::specs::Reading::pair_in))]
pub(crate) fn pair_of(bytes: &[u8]) -> Result<(u64, u64), ReadError>
    ensures { Decodes (λ pair. pair) result (pair_in bytes.now) }
{
    let rest = version_of(bytes)?;
    let (first, rest) = u64_at(rest)?;
    let (second, rest) = u64_at(rest)?;
    if !rest.is_empty() {
        return Err(ReadError::Fault(Fault::Trailing));
    }
    Ok((first, second))
}

/// Returns the record that the bytes spell, all of the bytes, and the process whose change led to it.
pub fn read_record(bytes: &[u8]) -> Result<StoredRecord, ReadError>
    ensures found { IfOk result (λ stored. IsWellFormed stored.state × (bytes.now ≡ record_bytes stored)) }
    ensures only { (stored : StoredValue) → IsWellFormed stored.state → stored.process < 2 ^ 64
        → bytes.now ≡ record_bytes stored → Decodes (λ found. found) result (Ok stored) }
    ensures fault { (fault : FaultValue) → pair_in bytes.now ≡ Err fault → Decodes (λ found. found) result (Err fault) }
    ensures word { (word process : ℕ) → pair_in bytes.now ≡ Ok (word, process)
        → ((state : RecordValue) → IsWellFormed state → word_of state ≡ word → ⊥)
        → Decodes (λ found. found) result (Err Word) }
{
    match pair_of(bytes) {
        Ok((word, process)) => match unpack(word) {
            Some(state) => Ok(StoredRecord { state, process }),
            None => Err(ReadError::Fault(Fault::Word)),
        },
        Err(error) => Err(error),
    }
}

#[tactic(auto, unfolding(crate::specs::Reading::item_in, crate::specs::Reading::mode_in))]
fn item_of(alloc: Global, bytes: &[u8]) -> Result<(Item<Vec<u8>>, &[u8]), ReadError>
    ensures { Decodes (λ x. (item_view x.0, x.1.now)) result (item_in bytes.now) }
{
    let (client, rest) = u64_at(bytes)?;
    let (number, rest) = u64_at(rest)?;
    let (code, rest) = u32_at(rest)?;
    let Some(mode) = mode_named(code) else {
        return Err(ReadError::Fault(Fault::Server));
    };
    let (hops, rest) = byte_at(rest)?;
    let (forgets, rest) = u64_at(rest)?;
    let (request, rest) = string_of(alloc, rest)?;
    let item = Item {
        client,
        number,
        mode,
        hops,
        forgets,
        request,
    };
    Ok((item, rest))
}

fn items_of(
    alloc: Global,
    count: u32,
    bytes: &[u8],
) -> Result<(Vec<Item<Vec<u8>>>, &[u8]), ReadError>
    ensures { Decodes (λ x. (item_views x.0.items, x.1.now)) result (items_in count bytes.now) }
{
    let mut items = Vec::new(alloc);
    let mut rest = bytes;
    for _ in 0..count {
        match item_of(alloc, rest) {
            Ok((item, after)) => {
                items.push(item)?;
                rest = after;
            }
            Err(error) => return Err(error),
        }
    }
    Ok((items, rest))
}

#[tactic(auto, unfolding(crate::specs::Reading::batch_in, crate::specs::Reading::server_in))]
fn batch_of(alloc: Global, bytes: &[u8]) -> Result<StoredBatch, ReadError>
    ensures { Decodes (λ stored. batch_view stored) result (batch_in bytes.now) }
{
    let rest = version_of(bytes)?;
    let (number, rest) = u32_at(rest)?;
    let Some(server) = server_named(number) else {
        return Err(ReadError::Fault(Fault::Server));
    };
    let (count, rest) = u32_at(rest)?;
    match items_of(alloc, count, rest) {
        Ok((items, rest)) => {
            if !rest.is_empty() {
                return Err(ReadError::Fault(Fault::Trailing));
            }
            Ok(StoredBatch { server, items })
        }
        Err(error) => Err(error),
    }
}

/// Returns the batch that the bytes spell, all of the bytes.
pub fn read_batch(alloc: Global, bytes: &[u8]) -> Result<StoredBatch, ReadError>
    // The bytes that are read are the encoding of the value.
    ensures found { IfOk result (λ stored. FitsBatch (batch_view stored)
        × (bytes.now ≡ batch_bytes (batch_view stored))) }
    // If the bytes are the encoding of a value, it is read, unless memory is refused.
    ensures only { (batch : Batch) → FitsBatch batch → bytes.now ≡ batch_bytes batch
        → Decodes (λ stored. batch_view stored) result (Ok batch) }
    // Which fault it is.
    ensures exact { Decodes (λ stored. batch_view stored) result (batch_in bytes.now) }
{
    batch_of(alloc, bytes)
}

#[tactic(auto, unfolding(crate::specs::Reading::part_in))]
fn part_of(alloc: Global, bytes: &[u8]) -> Result<StoredPart, ReadError>
    ensures { Decodes (λ stored. part_view stored) result (part_in bytes.now) }
{
    let rest = version_of(bytes)?;
    let (floor, rest) = u64_at(rest)?;
    let (state, rest) = string_of(alloc, rest)?;
    let (count, rest) = u32_at(rest)?;
    match items_of(alloc, count, rest) {
        Ok((lasts, rest)) => {
            if !rest.is_empty() {
                return Err(ReadError::Fault(Fault::Trailing));
            }
            Ok(StoredPart {
                floor,
                state,
                lasts,
            })
        }
        Err(error) => Err(error),
    }
}

/// Returns the part of a base that the bytes spell, all of the bytes.
pub fn read_part(alloc: Global, bytes: &[u8]) -> Result<StoredPart, ReadError>
    // The bytes that are read are the encoding of the value.
    ensures found { IfOk result (λ stored. FitsPart (part_view stored)
        × (bytes.now ≡ part_bytes (part_view stored))) }
    // If the bytes are the encoding of a value, it is read, unless memory is refused.
    ensures only { (part : PartText) → FitsPart part → bytes.now ≡ part_bytes part
        → Decodes (λ stored. part_view stored) result (Ok part) }
    // Which fault it is.
    ensures exact { Decodes (λ stored. part_view stored) result (part_in bytes.now) }
{
    part_of(alloc, bytes)
}
