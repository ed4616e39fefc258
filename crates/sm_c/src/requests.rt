//! Requests of the sample service by their parts.
ghost use Rattle.std.specs.Prelude.{◌≡◌, ◌⊎◌, IfErr, IfOk};
ghost use Rattle.sm_c.specs.Requests.{AreNoRequest, HasParts, IsNoKey};
ghost use Rattle.sm_service.specs.LentRequest.{request_lent};

use sm_ranges::key::{Key, KeyFault};
use sm_service::{Bytes, LentRequest, Request};
use std::alloc::Global;

/// Why parts are no request.
#[derive(Clone, Copy, Drop)]
pub(crate) enum RequestFault {
    /// There is no such kind, or a scan asks for fewer than 0 or for 2^32 pairs or more.
    Argument,
    /// The bytes are no key; or memory was refused.
    Key(KeyFault),
}

impl From<KeyFault> for RequestFault {
    ghost use Rattle.std.specs.Prelude.{◌≡◌};
    ghost use Rattle.sm_c.specs.declared.requests.RequestFault.TheVariants.{Key as BadKey};

    ghost from_gives = { λ fault made. made ≡ BadKey fault };

    fn from(fault: KeyFault) -> RequestFault {
        RequestFault::Key(fault)
    }
}

/// Returns the request of this kind with these parts, and copies those that it has.
pub(crate) fn request_of(
    alloc: Global,
    kind: u8,
    key: &[u8],
    other: &[u8],
    amount: i64,
) -> Result<Request, RequestFault>
    ensures made { IfOk result (HasParts kind key.now other.now amount) }
    ensures refused { IfErr result (λ fault. AreNoRequest fault kind key.now other.now amount
        ⊎ (fault ≡ RequestFault.Key KeyFault.NoMemory)) }
{
    let key = key_of(alloc, key)?;
    match kind {
        1 => Ok(Request::Get(key)),
        2 => Ok(Request::Put(key, text_of(alloc, other)?)),
        3 => Ok(Request::Append(key, text_of(alloc, other)?)),
        4 => Ok(Request::Inc(key, amount)),
        5 => Ok(Request::Del(key)),
        6 => {
            let Ok(most) = u32::try_from(amount) else {
                return Err(RequestFault::Argument);
            };
            Ok(Request::Scan(key, key_of(alloc, other)?, most))
        }
        _ => Err(RequestFault::Argument),
    }
}

/// Returns the request of this kind with these parts, which are lent to it.
pub(crate) fn lent_request_of<'a>(
    kind: u8,
    key: &'a [u8],
    other: &'a [u8],
    amount: i64,
) -> Result<LentRequest<'a>, RequestFault>
    ensures made { IfOk result (λ made. HasParts kind key.now other.now amount (request_lent made)) }
    ensures refused { IfErr result (λ fault. AreNoRequest fault kind key.now other.now amount) }
{
    let key = lent_key_of(key)?;
    match kind {
        1 => Ok(LentRequest::Get(key)),
        2 => Ok(LentRequest::Put(key, other)),
        3 => Ok(LentRequest::Append(key, other)),
        4 => Ok(LentRequest::Inc(key, amount)),
        5 => Ok(LentRequest::Del(key)),
        6 => {
            let Ok(most) = u32::try_from(amount) else {
                return Err(RequestFault::Argument);
            };
            Ok(LentRequest::Scan(key, lent_key_of(other)?, most))
        }
        _ => Err(RequestFault::Argument),
    }
}

/// Returns the bytes, if they are a key.
pub(crate) fn lent_key_of(bytes: &[u8]) -> Result<&[u8], KeyFault>
    ensures key { IfOk result (λ key. key.now ≡ bytes.now) }
    ensures refused { IfErr result (IsNoKey bytes.now) }
{
    match Key::fault_of(bytes) {
        None => Ok(bytes),
        Some(fault) => Err(fault),
    }
}

fn key_of(alloc: Global, bytes: &[u8]) -> Result<Key, KeyFault>
    ensures key { IfOk result (λ key. key ≡ bytes.now) }
    ensures refused { IfErr result (λ fault. IsNoKey bytes.now fault ⊎ (fault ≡ KeyFault.NoMemory)) }
{
    Key::new(alloc, bytes)
}

fn text_of(alloc: Global, bytes: &[u8]) -> Result<Bytes, KeyFault>
    ensures text { IfOk result (λ text. text ≡ bytes.now) }
    ensures refused { IfErr result (λ fault. fault ≡ KeyFault.NoMemory) }
{
    match Bytes::new(alloc, bytes) {
        Ok(text) => Ok(text),
        Err(_) => Err(KeyFault::NoMemory),
    }
}
