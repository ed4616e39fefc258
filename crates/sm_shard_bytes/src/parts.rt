//! The bytes of a base's parts.
ghost use Rattle.std.specs.Prelude.{◌≡◌, IfOk, IfSome, map};
ghost use Rattle.std.specs.List.{AllByRecursion};
ghost use Rattle.sm_codec.specs.Spelling.{FitsItem, item_view, item_views, part_bytes};
ghost use Rattle.sm_shard_bytes.specs.Replies.{last_item, part_text};

use crate::reply_bytes::ReplyBytes;
use sm_codec::{ReadError, StoredPart, read_part, write_part};
use sm_ownership::mode::Mode;
use sm_shard::{BasePart, LastRequest};
use sm_store::item::Item;
use std::alloc::{AllocError, Global};

/// Returns the bytes of a part of a base. Returns nothing if the part has 2 ^ 32 bytes of the machine, or clients, or
/// more.
pub fn write_base_part<R: ReplyBytes>(
    alloc: Global,
    part: &BasePart<R>,
) -> Result<Option<Vec<u8>>, AllocError>
    ensures { IfOk result (λ made. IfSome made (λ bytes. bytes.items ≡ part_bytes (part_text R.spelled part.now))) }
{
    let (state, lasts) = (part.state(), part.lasts());
    if state.len() > u32::MAX as usize || lasts.len() > u32::MAX as usize {
        return Ok(None);
    }
    let stored = StoredPart {
        floor: part.floor(),
        state: Vec::from_slice(alloc, state)?,
        lasts: items_of(alloc, lasts)?,
    };
    Ok(Some(write_part(alloc, &stored)?))
}

// Returns the last requests as items.
fn items_of<R: ReplyBytes>(
    alloc: Global,
    lasts: &[(u64, LastRequest<R>)],
) -> Result<Vec<Item<Vec<u8>>>, AllocError>
    ensures spelled { IfOk result (λ items. item_views items.items ≡ map (last_item R.spelled) lasts.now) }
    ensures fit { IfOk result (λ items. AllByRecursion FitsItem (item_views items.items)) }
{
    let mut items = Vec::new(alloc);
    for (client, last) in lasts {
        let item = item_of(alloc, *client, *last)?;
        items.push(item)?;
    }
    Ok(items)
}

fn item_of<R: ReplyBytes>(
    alloc: Global,
    client: u64,
    last: LastRequest<R>,
) -> Result<Item<Vec<u8>>, AllocError>
    ensures spelled { IfOk result (λ item. item_view item ≡ last_item R.spelled (client, last)) }
    ensures fits { IfOk result (λ item. FitsItem (item_view item)) }
{
    Ok(Item {
        client,
        number: last.number,
        mode: Mode::Direct,
        hops: 0,
        forgets: 0,
        request: last.reply.bytes(alloc)?,
    })
}

/// Returns the part of a base that all the bytes together spell. Returns nothing if they spell none, or if a last
/// request of it has no reply.
pub fn read_base_part<R: ReplyBytes>(
    alloc: Global,
    bytes: &[u8],
) -> Result<Option<BasePart<R>>, ReadError>
    ensures { IfOk result (λ found. IfSome found (λ part. bytes.now ≡ part_bytes (part_text R.spelled part))) }
{
    let StoredPart {
        floor,
        state,
        lasts,
    } = read_part(alloc, bytes)?;
    match lasts_of(alloc, &lasts)? {
        Some(lasts) => Ok(Some(BasePart::new(state, lasts, floor))),
        None => Ok(None),
    }
}

fn lasts_of<R: ReplyBytes>(
    alloc: Global,
    items: &[Item<Vec<u8>>],
) -> Result<Option<Vec<(u64, LastRequest<R>)>>, AllocError>
    ensures { IfOk result (λ found. IfSome found
        (λ lasts. item_views items.now ≡ map (last_item R.spelled) lasts.items)) }
{
    let mut lasts = Vec::new(alloc);
    for item in items {
        let Some(last) = last_of(item) else {
            return Ok(None);
        };
        lasts.push(last)?;
    }
    Ok(Some(lasts))
}

// Returns the last request that the item stands for.
fn last_of<R: ReplyBytes>(item: &Item<Vec<u8>>) -> Option<(u64, LastRequest<R>)>
    ensures { IfSome result (λ last. item_view item.now ≡ last_item R.spelled last) }
{
    match (
        item.mode,
        item.hops,
        item.forgets,
        R::of_bytes(&item.request),
    ) {
        (Mode::Direct, 0, 0, Some(reply)) => Some((
            item.client,
            LastRequest {
                number: item.number,
                reply,
            },
        )),
        _ => None,
    }
}
