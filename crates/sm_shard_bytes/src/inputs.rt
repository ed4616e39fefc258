//! Inputs of a server that lend nothing. In generic code the borrow checker asks for a lifetime of their own.
ghost use Rattle.std.specs.Prelude.{◌≡◌};
ghost use Rattle.sm_shard.specs.declared.steps.ShardInput.TheVariants.{Base, Clear, Flush, Lost, Made, PartsMade};
ghost use Rattle.sm_shard.specs.declared.steps.ShardInput.TheVariants.{Record as RecordRead};
ghost use Rattle.sm_shard_bytes.specs.Servers.{IsComing};

use crate::reply_bytes::ReplyBytes;
use sm_ownership::record::Record;
use sm_shard::ShardInput;
use sm_store::item::Item;
use sm_store::store_key::PassingKey;

/// Returns the input by which only the shard's record was read.
pub fn record_read<'a, R: ReplyBytes>(state: Record, stood: u64) -> ShardInput<'a, Vec<u8>, R>
    ensures { result ≡ RecordRead state stood }
{
    ShardInput::Record { state, stood }
}

/// Returns the input by which the request came, as one that only reads or as one that is made.
pub fn coming<'a, R: ReplyBytes>(reads: bool, item: Item<Vec<u8>>) -> ShardInput<'a, Vec<u8>, R>
    ensures { IsComing reads item result }
{
    if reads {
        ShardInput::Question(item)
    } else {
        ShardInput::Request(item)
    }
}

/// Returns the input by which it is time to send the waiting requests.
pub fn flush<'a, R: ReplyBytes>() -> ShardInput<'a, Vec<u8>, R>
    ensures { result ≡ Flush }
{
    ShardInput::Flush
}

/// Returns the input by which the transaction was made at this revision.
pub fn made<'a, R: ReplyBytes>(revision: u64) -> ShardInput<'a, Vec<u8>, R>
    ensures { result ≡ Made revision }
{
    ShardInput::Made(revision)
}

/// Returns the input by which the transaction was lost.
pub fn lost<'a, R: ReplyBytes>() -> ShardInput<'a, Vec<u8>, R>
    ensures { result ≡ Lost }
{
    ShardInput::Lost
}

/// Returns the input by which it is time to make a base.
pub fn base<'a, R: ReplyBytes>() -> ShardInput<'a, Vec<u8>, R>
    ensures { result ≡ Base }
{
    ShardInput::Base
}

/// Returns the input by which each part of the base was written.
pub fn parts_made<'a, R: ReplyBytes>() -> ShardInput<'a, Vec<u8>, R>
    ensures { result ≡ PartsMade }
{
    ShardInput::PartsMade
}

/// Returns the input by which a value lies at this key.
pub fn clear<'a, R: ReplyBytes>(key: PassingKey) -> ShardInput<'a, Vec<u8>, R>
    ensures { result ≡ Clear key }
{
    ShardInput::Clear(key)
}
