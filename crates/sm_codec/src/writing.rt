ghost use Rattle.std.specs.Prelude.{◌≡◌, ◌<◌, ◌^◌, ◌++◌, length, IfOk, OnOk};
ghost use Rattle.std.specs.Int.{w32, w64, to_be_bytes};
ghost use Rattle.std.specs.List.{AllByRecursion, flat_map};
ghost use Rattle.sm_codec.specs.Spelling.{FitsBatch, FitsItem, batch_bytes, head_bytes, item_bytes};
ghost use Rattle.sm_codec.specs.Spelling.{item_view, item_views, mode_number, pair_bytes, record_bytes};
ghost use Rattle.sm_codec.specs.Spelling.{FitsPart, part_bytes, part_view, string_bytes};
ghost use Rattle.sm_word.specs.Word.{IsWellFormed};

use crate::stored_part::StoredPart;
use crate::stored_record::StoredRecord;
use sm_ownership::mode::Mode;
use sm_ranges::server_id::ServerId;
use sm_store::head::Head;
use sm_store::item::Item;
use sm_word::word::pack;
use std::alloc::{AllocError, Global};

/// Returns the bytes of a head.
pub fn write_head(alloc: Global, head: &Head) -> Result<Vec<u8>, AllocError>
    ensures { IfOk result (λ bytes. bytes.items ≡ head_bytes head.now) }
{
    let mut out = Vec::new(alloc);
    out.push(1)?;
    out.extend_from_slice(&head.batches.to_be_bytes())?;
    out.extend_from_slice(&head.base.to_be_bytes())?;
    out.extend_from_slice(&head.parts.to_be_bytes())?;
    Ok(out)
}

/// Returns the bytes of two numbers.
pub(crate) fn write_pair(alloc: Global, first: u64, second: u64) -> Result<Vec<u8>, AllocError>
    ensures { IfOk result (λ bytes. bytes.items ≡ pair_bytes first second) }
{
    let mut out = Vec::new(alloc);
    out.push(1)?;
    out.extend_from_slice(&first.to_be_bytes())?;
    out.extend_from_slice(&second.to_be_bytes())?;
    Ok(out)
}

/// Returns the bytes of a well-formed record, and of the process whose change led to it.
pub fn write_record(alloc: Global, stored: &StoredRecord) -> Result<Vec<u8>, AllocError>
    requires { IsWellFormed stored.now.state }
    ensures { IfOk result (λ bytes. bytes.items ≡ record_bytes stored.now) }
{
    write_pair(alloc, pack(stored.state), stored.process)
}

// Returns the number that encodes how a request came.
fn mode_code(mode: &Mode) -> u32
    ensures { result ≡ mode_number mode.now }
{
    match mode {
        Mode::Direct => 0,
        Mode::Forwarded(from) => u32::from(from.number()),
    }
}

fn put_front(out: &mut Vec<u8>, client: u64, number: u64, code: u32) -> Result<(), AllocError>
    ensures { OnOk result (out.new.items ≡ out.old.items
        ++ (to_be_bytes w64 client ++ (to_be_bytes w64 number ++ to_be_bytes w32 code))) }
{
    out.extend_from_slice(&client.to_be_bytes())?;
    out.extend_from_slice(&number.to_be_bytes())?;
    out.extend_from_slice(&code.to_be_bytes())?;
    Ok(())
}

fn put_number(out: &mut Vec<u8>, number: u64) -> Result<(), AllocError>
    ensures { OnOk result (out.new.items ≡ out.old.items ++ to_be_bytes w64 number) }
{
    out.extend_from_slice(&number.to_be_bytes())?;
    Ok(())
}

// Writes the number of bytes, and then the bytes.
fn put_string(out: &mut Vec<u8>, bytes: &[u8]) -> Result<(), AllocError>
    requires { length bytes.now < 2 ^ 32 }
    ensures { OnOk result (out.new.items ≡ out.old.items ++ string_bytes bytes.now) }
{
    out.extend_from_slice(&(bytes.len() as u32).to_be_bytes())?;
    out.extend_from_slice(bytes)?;
    Ok(())
}

fn put_item(out: &mut Vec<u8>, item: &Item<Vec<u8>>) -> Result<(), AllocError>
    requires { length item.now.request.items < 2 ^ 32 }
    ensures { OnOk result (out.new.items ≡ out.old.items ++ item_bytes (item_view item.now)) }
{
    let code = mode_code(&item.mode);
    put_front(out, item.client, item.number, code)?;
    out.push(item.hops)?;
    put_number(out, item.forgets)?;
    put_string(out, &item.request)?;
    Ok(())
}

fn put_items(out: &mut Vec<u8>, items: &[Item<Vec<u8>>]) -> Result<(), AllocError>
    requires { AllByRecursion FitsItem (item_views items.now) }
    ensures { OnOk result (out.new.items ≡ out.old.items ++ flat_map item_bytes (item_views items.now)) }
{
    for item in items {
        put_item(out, item)?;
    }
    Ok(())
}

/// Returns the bytes of a batch of these requests, fewer than 2 ^ 32, each of fewer bytes than that, which the server
/// executed.
pub fn write_requests(
    alloc: Global,
    server: ServerId,
    items: &[Item<Vec<u8>>],
) -> Result<Vec<u8>, AllocError>
    requires { FitsBatch (record { server = server; items = item_views items.now }) }
    ensures { IfOk result (λ bytes. bytes.items ≡ batch_bytes
        (record { server = server; items = item_views items.now })) }
{
    let mut out = Vec::new(alloc);
    out.push(1)?;
    out.extend_from_slice(&u32::from(server.number()).to_be_bytes())?;
    out.extend_from_slice(&(items.len() as u32).to_be_bytes())?;
    put_items(&mut out, items)?;
    Ok(out)
}

/// Returns the bytes of a part of a base that has fewer than 2 ^ 32 bytes and last requests, each reply of fewer bytes
/// than that.
pub fn write_part(alloc: Global, stored: &StoredPart) -> Result<Vec<u8>, AllocError>
    requires { FitsPart (part_view stored.now) }
    ensures { IfOk result (λ bytes. bytes.items ≡ part_bytes (part_view stored.now)) }
{
    let mut out = Vec::new(alloc);
    out.push(1)?;
    put_number(&mut out, stored.floor)?;
    put_string(&mut out, &stored.state)?;
    out.extend_from_slice(&(stored.lasts.len() as u32).to_be_bytes())?;
    put_items(&mut out, &stored.lasts)?;
    Ok(out)
}
