//! A server's transactions, as bytes.
ghost use Rattle.std.specs.Prelude.{◌≡◌, ◌<◌, ◌^◌, IfErr, IfOk, IsTrue, Option, None};
ghost use Rattle.sm_codec.specs.Spelling.{FitsBatch, FitsItem, FitsMode, item_view, item_views};
ghost use Rattle.sm_shard_bytes.specs.Refusals.{IsWithoutBytes};
ghost use Rattle.sm_shard_bytes.specs.Servers.{IsSpelled, batch_written, head_written, number_written};

use crate::sent_bytes::SentBytes;
use crate::server_fault::ServerFault;
use sm_codec::{write_head, write_requests};
use sm_ownership::mode::Mode;
use sm_ranges::server_id::ServerId;
use sm_shard::{BatchSending, NamedBase};
use sm_store::head::Head;
use sm_store::item::Item;
use std::alloc::Global;

/// Returns the compares and the writes of the transaction.
pub fn spelled(alloc: Global, sending: &BatchSending<'_, Vec<u8>>) -> Result<SentBytes, ServerFault>
    ensures spelled { IfOk result (IsSpelled sending.now) }
    ensures refused { IfErr result IsWithoutBytes }
{
    let number = number_of(sending.items, &sending.head)?;
    let head = head_of(alloc, sending.items, sending.base, &sending.head)?;
    let batch = batch_of(alloc, sending.server, sending.items)?;
    Ok(SentBytes {
        stood: sending.stood,
        logged: sending.logged,
        number,
        head,
        batch,
    })
}

// Returns the number of the batch that is written, or 0 for none.
fn number_of(items: &[Item<Vec<u8>>], head: &Head) -> Result<u64, ServerFault>
    ensures number { IfOk result (λ number. number ≡ number_written items.now head.now) }
    ensures refused { IfErr result IsWithoutBytes }
{
    match items {
        [] => Ok(0),
        [_, ..] => match head.batches.checked_add(1) {
            Some(number) => Ok(number),
            None => Err(ServerFault::TooLarge),
        },
    }
}

// Returns the bytes for the head.
fn head_of(
    alloc: Global,
    items: &[Item<Vec<u8>>],
    base: Option<NamedBase>,
    head: &Head,
) -> Result<Vec<u8>, ServerFault>
    ensures bytes { IfOk result (λ bytes. bytes.items ≡ head_written items.now base head.now) }
    ensures refused { IfErr result IsWithoutBytes }
{
    match items {
        [] => match base {
            Some(base) => {
                let bytes = write_head(
                    alloc,
                    &Head {
                        batches: head.batches,
                        base: base.number,
                        parts: base.parts,
                    },
                )?;
                Ok(bytes)
            }
            None => Ok(Vec::new(alloc)),
        },
        [_, ..] => {
            let Some(batches) = head.batches.checked_add(1) else {
                return Err(ServerFault::TooLarge);
            };
            let bytes = write_head(
                alloc,
                &Head {
                    batches,
                    base: head.base,
                    parts: head.parts,
                },
            )?;
            Ok(bytes)
        }
    }
}

// Returns the bytes for the batch.
fn batch_of(
    alloc: Global,
    server: ServerId,
    items: &[Item<Vec<u8>>],
) -> Result<Vec<u8>, ServerFault>
    ensures bytes { IfOk result (λ bytes. bytes.items ≡ batch_written server items.now) }
    ensures refused { IfErr result IsWithoutBytes }
{
    match items {
        [] => Ok(Vec::new(alloc)),
        [_, ..] => {
            if !do_fit(server, items) {
                return Err(ServerFault::TooLarge);
            }
            let bytes = write_requests(alloc, server, items)?;
            Ok(bytes)
        }
    }
}

// Whether the requests have bytes as a batch.
fn do_fit(server: ServerId, items: &[Item<Vec<u8>>]) -> bool
    ensures { IsTrue result → FitsBatch (record { server = server; items = item_views items.now }) }
{
    let _server = server.number();
    if items.len() > u32::MAX as usize {
        return false;
    }
    for item in items {
        if !does_fit(item) {
            return false;
        }
    }
    true
}

fn does_fit(item: &Item<Vec<u8>>) -> bool
    ensures { IsTrue result → FitsItem (item_view item.now) }
{
    is_wide(item.client);
    is_wide(item.number);
    is_wide(item.forgets);
    names_server(item.mode);
    item.request.len() <= u32::MAX as usize
}

// Shows that a number of 64 bits is one. Reading it tells that to the proof, and does nothing else.
fn is_wide(number: u64)
    ensures { number < 2 ^ 64 }
{
    let _ = number;
}

// The server that a request came by is numbered as servers are.
fn names_server(mode: Mode)
    ensures { FitsMode mode }
{
    match mode {
        Mode::Direct => {}
        Mode::Forwarded(from) => {
            let _ = from.number();
        }
    }
}
