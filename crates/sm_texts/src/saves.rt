//! The bytes that encode a map.
ghost use Rattle.std.specs.Prelude.{◌≡◌, ◌<◌, ◌≤◌, ◌++◌, ℕ, List, IfSome, Some, IfOk, OnOk, length, map};
ghost use Rattle.std.specs.Option.{option_map};
ghost use Rattle.sm_map.specs.Val.{held_of, row_of};
ghost use Rattle.sm_store.specs.declared.item.Item.{Item};
ghost use Rattle.std.specs.Global.{Vec};
ghost use Rattle.sm_store.specs.Clients.{state_after};
ghost use Rattle.std.specs.Int.{w64};
ghost use Rattle.sm_texts.specs.Saves.{front_bytes, wide_number_in, pair_at, held_pair_bytes, pair_keyed};
ghost use Rattle.sm_texts.specs.Saves.{pair_numbered};
ghost use Rattle.sm_texts.specs.Saves.{spelled_pairs, texts_service};

use crate::requests::number_of;
use sm_map::arena_map::ArenaMap;
use sm_map::val::Val;
use std::alloc::{AllocError, Global};

// Every key of a map is below this one.
const ABOVE_KEYS: [u8; 256] = [255; 256];

/// Returns the bytes that encode the map. Returns the error of refused memory also if a key has bytes that no request's
/// key can have.
pub(crate) fn save(alloc: Global, map: &ArenaMap) -> Result<Vec<u8>, AllocError>
    ensures { IfOk result (λ bytes. bytes.items ≡ spelled_pairs map.now.pairs) }
{
    let rows = found(map, &[], &ABOVE_KEYS, usize::MAX)?;
    if rows.len() as u128 != map.len() {
        return Err(AllocError);
    }
    rows_bytes(alloc, &rows)
}

// Returns the rows of a scan. If they are as many as the map's pairs, they are all of them.
fn found<'a>(
    texts: &'a ArenaMap,
    low: &[u8],
    high: &[u8],
    most: usize,
) -> Result<Vec<(&'a [u8], Val<'a>)>, AllocError>
    ensures { IfOk result (λ rows. length rows.items ≡ length texts.now.pairs
        → map row_of rows.items ≡ texts.now.pairs) }
{
    texts.scan(low, high, most)
}

fn rows_bytes(alloc: Global, rows: &[(&[u8], Val<'_>)]) -> Result<Vec<u8>, AllocError>
    ensures { IfOk result (λ bytes. bytes.items ≡ spelled_pairs (map row_of rows.now)) }
{
    let mut out = Vec::new(alloc);
    for row in rows {
        put_row(&mut out, row)?;
    }
    Ok(out)
}

fn put_row(out: &mut Vec<u8>, row: &(&[u8], Val<'_>)) -> Result<(), AllocError>
    ensures { OnOk result (out.new.items ≡ out.old.items ++ held_pair_bytes (row_of row.now)) }
{
    let (key, value) = *row;
    match value {
        Val::Text(text) => put_parts(out, 0, text.len() as u64, key, text),
        Val::Count(count) => put_parts(out, 1, count.cast_unsigned(), key, &[]),
    }
}

fn put_parts(
    out: &mut Vec<u8>,
    kind: u8,
    number: u64,
    key: &[u8],
    text: &[u8],
) -> Result<(), AllocError>
    ensures { OnOk result (out.new.items
        ≡ out.old.items ++ (front_bytes kind (length key.now) number ++ (key.now ++ text.now))) }
{
    put_front(out, kind, key.len() as u64, number)?;
    out.extend_from_slice(key)?;
    out.extend_from_slice(text)?;
    Ok(())
}

#[tactic(auto, unfolding(crate::specs::Saves::front_bytes))]
fn put_front(out: &mut Vec<u8>, kind: u8, count: u64, number: u64) -> Result<(), AllocError>
    ensures { OnOk result (out.new.items ≡ out.old.items ++ front_bytes kind count number) }
{
    out.push(kind)?;
    out.extend_from_slice(&count.to_be_bytes())?;
    out.extend_from_slice(&number.to_be_bytes())?;
    Ok(())
}

// Returns the first pair that the bytes spell, and the bytes after it.
fn pair_of(bytes: &[u8]) -> Option<(&[u8], Val<'_>, &[u8])>
    ensures exact { option_map (λ read. (record { key = read.0.now; value = held_of read.1 }, read.2.now)) result
        ≡ pair_at bytes.now }
    ensures fewer { IfSome result (λ read. length read.2.now < length bytes.now) }
{
    match bytes {
        [] => None,
        [kind, rest @ ..] => match number_of(rest) {
            Some((count, rest)) => numbered(*kind, count, rest),
            None => None,
        },
    }
}

// Returns the pair of this kind with a key of this many bytes, and the bytes after it.
fn numbered(kind: u8, count: u64, bytes: &[u8]) -> Option<(&[u8], Val<'_>, &[u8])>
    ensures exact { option_map (λ read. (record { key = read.0.now; value = held_of read.1 }, read.2.now)) result
        ≡ pair_numbered kind count (wide_number_in w64 bytes.now) }
    ensures fewer { IfSome result (λ read. length read.2.now < length bytes.now) }
{
    match number_of(bytes) {
        Some((number, rest)) => keyed(kind, number, count, rest),
        None => None,
    }
}

// Returns the pair of this kind and number with a key of this many bytes, and the bytes after it.
fn keyed(kind: u8, number: u64, count: u64, bytes: &[u8]) -> Option<(&[u8], Val<'_>, &[u8])>
    ensures exact { option_map (λ read. (record { key = read.0.now; value = held_of read.1 }, read.2.now)) result
        ≡ pair_numbered kind count (Some (number, bytes.now)) }
    ensures fewer { IfSome result (λ read. length read.2.now ≤ length bytes.now) }
{
    if (bytes.len() as u64) < count {
        return None;
    }
    let (key, rest) = bytes.split_at(count as usize);
    match value_of(kind, number, rest) {
        Some((value, rest)) => Some((key, value, rest)),
        None => None,
    }
}

// Returns the value of this kind and number, and the bytes after it.
fn value_of(kind: u8, number: u64, bytes: &[u8]) -> Option<(Val<'_>, &[u8])>
    ensures exact { (key : List ℕ) → option_map (λ read. (record { key = key; value = held_of read.0 }, read.1.now))
        result ≡ pair_keyed kind number key bytes.now }
    ensures fewer { IfSome result (λ read. length read.1.now ≤ length bytes.now) }
{
    if kind != 0 {
        return Some((Val::Count(number.cast_signed()), bytes));
    }
    if (bytes.len() as u64) < number {
        return None;
    }
    let (text, rest) = bytes.split_at(number as usize);
    Some((Val::Text(text), rest))
}

/// Returns the map that the bytes encode. If a map after some requests was encoded as these bytes, that is the map.
pub(crate) fn load(alloc: Global, bytes: &[u8]) -> Result<Option<ArenaMap>, AllocError>
    ensures { (items : List (Item (Vec ℕ)))
        → bytes.now ≡ spelled_pairs (state_after texts_service texts_service.start items)
        → IfOk result (λ found. option_map (λ map. map.pairs) found
        ≡ Some (state_after texts_service texts_service.start items)) }
{
    let mut map = ArenaMap::new(alloc);
    let mut rest = bytes;
    while !rest.is_empty() {
        let Some((key, value, after)) = pair_of(rest) else {
            return Ok(None);
        };
        map.put(key, value)?;
        rest = after;
    }
    Ok(Some(map))
}
