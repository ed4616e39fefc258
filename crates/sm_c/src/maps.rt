//! Maps of the sample service.
ghost use Rattle.std.specs.Prelude.{◌≡◌, ◌≢◌};
ghost use Rattle.sm_handle.specs.Maps.{IsEmptyMap, KeepsNoMap, Replied, WritesHeld};
ghost use Rattle.sm_c.specs.Requests.{AsksMap, AsksNothing, CountsKeys, GetsNothing};

use crate::codes::{NO_MEMORY, WRONG_HANDLE, code_of_act, code_of_request};
use crate::requests::{RequestFault, lent_key_of, lent_request_of};
use sm_handle::{Handle, ReplyParts};
use std::alloc::Global;

/// Makes an empty map. The handle keeps it, in place of its earlier state.
#[unsafe(no_mangle)]
pub extern "C" fn durkenzo_map(alloc: Global, map: &mut Handle) -> u32
    ensures made { result ≡ 0 → IsEmptyMap map.new.owned.state }
    ensures refused { result ≢ 0 → result ≡ NO_MEMORY }
    ensures kept { result ≢ 0 → map.new.owned.state ≡ map.old.owned.state }
{
    match map.map(alloc) {
        Ok(()) => 0,
        Err(_) => NO_MEMORY,
    }
}

/// Writes how many keys the map has; 2^64 - 1 if there are more.
#[unsafe(no_mangle)]
pub extern "C" fn durkenzo_map_length(map: &mut Handle, length: &mut u64) -> u32
    ensures found { result ≡ 0 → CountsKeys map.old.owned.state length.new }
    ensures refused { result ≢ 0 → (result ≡ WRONG_HANDLE) × KeepsNoMap map.old.owned.state }
    ensures unwritten { result ≢ 0 → length.new ≡ length.old }
    ensures unchanged { map.new.owned.state ≡ map.old.owned.state }
{
    match map.map_len() {
        Ok(count) => {
            *length = count.min(u128::from(u64::MAX)) as u64;
            0
        }
        Err(fault) => code_of_act(fault),
    }
}

/// Writes the value at the key of the map: its parts, and a text to the front of the room, if there is room for all of
/// it.
#[unsafe(no_mangle)]
pub extern "C" fn durkenzo_get(
    map: &mut Handle,
    key: &[u8],
    into: &mut [u8],
    parts: &mut ReplyParts,
) -> u32
    ensures held { result ≡ 0 → WritesHeld map.old.owned.state key.now into.new parts.new }
    ensures refused { result ≢ 0 → GetsNothing map.old.owned.state key.now result }
    ensures unwritten { result ≢ 0 → (into.new ≡ into.old) × (parts.new ≡ parts.old) }
    ensures unchanged { map.new.owned.state ≡ map.old.owned.state }
{
    let key = match lent_key_of(key) {
        Ok(key) => key,
        Err(fault) => return code_of_request(RequestFault::Key(fault)),
    };
    match map.get(key, into) {
        Ok(held) => {
            *parts = held;
            0
        }
        Err(fault) => code_of_act(fault),
    }
}

/// Makes the request of this kind on the map. The reply's handle keeps the reply, in place of its earlier state, and
/// its parts are written.
#[unsafe(no_mangle)]
pub extern "C" fn durkenzo_ask(
    alloc: Global,
    map: &mut Handle,
    reply: &mut Handle,
    kind: u8,
    key: &[u8],
    other: &[u8],
    amount: i64,
    parts: &mut ReplyParts,
) -> u32
    ensures made { result ≡ 0
        → AsksMap map.old.owned.state map.new.owned.state kind key.now other.now amount reply.new.owned.state }
    ensures parts { result ≡ 0 → Replied reply.new.owned.state parts.new }
    ensures refused { result ≢ 0 → AsksNothing map.old.owned.state kind key.now other.now amount result }
    ensures kept { result ≢ 0 → map.new.owned.state ≡ map.old.owned.state }
    ensures unwritten { result ≢ 0 → (reply.new.owned.state ≡ reply.old.owned.state) × (parts.new ≡ parts.old) }
{
    let request = match lent_request_of(kind, key, other, amount) {
        Ok(request) => request,
        Err(fault) => return code_of_request(fault),
    };
    match map.ask(alloc, reply, request) {
        Ok(made) => {
            *parts = made;
            0
        }
        Err(fault) => code_of_act(fault),
    }
}
