//! Requests on a map, by their parts.
ghost use Rattle.std.specs.Prelude.{◌≡◌, ◌<◌, IfOk, OnOk, IfSome, length};
ghost use Rattle.std.specs.Int.{w64, from_be_bytes};
ghost use Rattle.std.specs.Option.{option_map};
ghost use Rattle.sm_map.specs.KeyMap.{held_at, text_of};
ghost use Rattle.sm_service.specs.Service.{reply, after, sum_of};
ghost use Rattle.sm_service.specs.declared.request.Request.TheVariants.{Get, Put, Append, Inc, Del};
ghost use Rattle.sm_texts.specs.Saves.{wide_number_in};
ghost use Rattle.sm_texts.specs.Texts.{parts_in, reply_parts, request_of_kind, texts_after, texts_reply};

use crate::text_reply::TextReply;
use sm_map::arena_map::ArenaMap;
use sm_map::val::Val;
use sm_service::counter_text::MAX_TEXT;
use sm_shard::ReadAnswer;
use std::alloc::{AllocError, Global};

/// Returns the kind, the key and the rest of a request.
pub fn parts_of(bytes: &[u8]) -> Option<(u8, &[u8], &[u8])>
    ensures { option_map (λ parts. (parts.0, parts.1.now, parts.2.now)) result ≡ parts_in bytes.now }
{
    match bytes {
        [kind, count, rest @ ..] => {
            let (kind, count) = (*kind, *count);
            let length = usize::from(count);
            if length == 0 || rest.len() < length {
                return None;
            }
            let (key, rest) = rest.split_at(length);
            Some((kind, key, rest))
        }
        _ => None,
    }
}

/// Returns a number of 64 bits, and the bytes after it.
pub(crate) fn number_of(bytes: &[u8]) -> Option<(u64, &[u8])>
    ensures exact { option_map (λ read. (read.0, read.1.now)) result ≡ wide_number_in w64 bytes.now }
    ensures fewer { IfSome result (λ read. length read.1.now < length bytes.now) }
{
    if bytes.len() < 8 {
        return None;
    }
    let (front, rest) = bytes.split_at(8);
    let number = u64::from_be_bytes([
        front[0], front[1], front[2], front[3], front[4], front[5], front[6], front[7],
    ]);
    Some((number, rest))
}

/// Returns the reply to the request of this kind.
pub(crate) fn answer_to(
    map: &mut ArenaMap,
    kind: u8,
    key: &[u8],
    rest: &[u8],
) -> Result<TextReply, AllocError>
    ensures reply { IfOk result (λ made. made
        ≡ texts_reply map.old.pairs (request_of_kind kind key.now rest.now)) }
    ensures after { OnOk result (map.new.pairs
        ≡ texts_after map.old.pairs (request_of_kind kind key.now rest.now)) }
{
    match kind {
        1 => Ok(get(map, key)),
        2 => put(map, key, rest),
        3 => append(map, key, rest),
        4 => match number_of(rest) {
            Some((number, _)) => inc(map, key, number.cast_signed()),
            None => Ok(TextReply::new(8, 0)),
        },
        5 => Ok(del(map, key)),
        _ => Ok(TextReply::new(8, 0)),
    }
}

/// Returns the reply to a request that reads the key.
pub(crate) fn get(map: &ArenaMap, key: &[u8]) -> TextReply
    ensures { result ≡ reply_parts (reply map.now.pairs (Get key.now)) }
{
    match map.get(key) {
        None => TextReply::new(0, 0),
        Some(Val::Text(text)) => TextReply::new(2, text.len() as u64),
        Some(Val::Count(count)) => TextReply::new(3, count.cast_unsigned()),
    }
}

/// Reads the key: returns the reply to a request for its value, and its text.
pub(crate) fn read(
    alloc: Global,
    map: &ArenaMap,
    key: &[u8],
) -> Result<ReadAnswer<TextReply>, AllocError>
    ensures reply { IfOk result (λ answer. answer.reply ≡ reply_parts (reply map.now.pairs (Get key.now))) }
    ensures text { IfOk result (λ answer. answer.text.items ≡ text_of (held_at map.now.pairs key.now)) }
{
    match map.get(key) {
        None => Ok(ReadAnswer {
            reply: TextReply::new(0, 0),
            text: Vec::new(alloc),
        }),
        Some(Val::Text(text)) => Ok(ReadAnswer {
            reply: TextReply::new(2, text.len() as u64),
            text: Vec::from_slice(alloc, text)?,
        }),
        Some(Val::Count(count)) => Ok(ReadAnswer {
            reply: TextReply::new(3, count.cast_unsigned()),
            text: Vec::new(alloc),
        }),
    }
}

fn put(map: &mut ArenaMap, key: &[u8], text: &[u8]) -> Result<TextReply, AllocError>
    ensures reply { IfOk result (λ made. made ≡ reply_parts (reply map.old.pairs (Put key.now text.now))) }
    ensures after { OnOk result (map.new.pairs ≡ after map.old.pairs (Put key.now text.now)) }
{
    let position = map.locate(key);
    if let Some(Val::Count(_)) = map.get_at(position) {
        return Ok(TextReply::new(5, 0));
    }
    if text.len() > MAX_TEXT {
        return Ok(TextReply::new(7, 0));
    }
    map.put_at(position, Val::Text(text))?;
    Ok(TextReply::new(1, 0))
}

fn inc(map: &mut ArenaMap, key: &[u8], amount: i64) -> Result<TextReply, AllocError>
    ensures reply { IfOk result (λ made. made ≡ reply_parts (reply map.old.pairs (Inc key.now amount))) }
    ensures after { OnOk result (map.new.pairs ≡ after map.old.pairs (Inc key.now amount)) }
{
    let position = map.locate(key);
    let sum = match map.get_at(position) {
        None => amount,
        Some(Val::Text(_)) => return Ok(TextReply::new(5, 0)),
        Some(Val::Count(count)) => match sum_of(count, amount) {
            None => return Ok(TextReply::new(6, 0)),
            Some(sum) => sum,
        },
    };
    map.put_at(position, Val::Count(sum))?;
    Ok(TextReply::new(3, sum.cast_unsigned()))
}

fn append(map: &mut ArenaMap, key: &[u8], tail: &[u8]) -> Result<TextReply, AllocError>
    ensures reply { IfOk result (λ made. made ≡ reply_parts (reply map.old.pairs (Append key.now tail.now))) }
    ensures after { OnOk result (map.new.pairs ≡ after map.old.pairs (Append key.now tail.now)) }
{
    let position = map.locate(key);
    let length = match map.get_at(position) {
        None => return put(map, key, tail),
        Some(Val::Count(_)) => return Ok(TextReply::new(5, 0)),
        Some(Val::Text(text)) => text.len(),
    };
    if length + tail.len() > MAX_TEXT {
        return Ok(TextReply::new(7, 0));
    }
    map.append_at(position, tail)?;
    Ok(TextReply::new(1, 0))
}

fn del(map: &mut ArenaMap, key: &[u8]) -> TextReply
    ensures reply { result ≡ reply_parts (reply map.old.pairs (Del key.now)) }
    ensures after { map.new.pairs ≡ after map.old.pairs (Del key.now) }
{
    if map.remove(key) {
        TextReply::new(1, 0)
    } else {
        TextReply::new(0, 0)
    }
}

// Returns the sum, if 64 bits hold it.
fn sum_of(count: i64, amount: i64) -> Option<i64>
    ensures { result ≡ sum_of count amount }
{
    count.checked_add(amount)
}
