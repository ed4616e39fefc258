ghost use Rattle.std.specs.Prelude.{◌≡◌};
ghost use Rattle.std.specs.Int.{w32, w64};
ghost use Rattle.sm_codec.specs.Reading.{Decodes, byte_in, mode_named, number_in, server_named, string_in, version_in};

use crate::fault::{Fault, ReadError};
use sm_ownership::mode::Mode;
use sm_ranges::limits::MAX_SERVER;
use sm_ranges::server_id::ServerId;
use std::alloc::Global;

/// Returns the bytes after the version.
#[tactic(auto, unfolding(crate::specs::Reading::version_in))]
pub fn version_of(bytes: &[u8]) -> Result<&[u8], ReadError>
    ensures { Decodes (λ x. x.now) result (version_in bytes.now) }
{
    match bytes {
        [] => Err(ReadError::Fault(Fault::Short)),
        [1, rest @ ..] => Ok(rest),
        [_, ..] => Err(ReadError::Fault(Fault::Version)),
    }
}

/// Returns one byte, and those after it.
pub fn byte_at(bytes: &[u8]) -> Result<(u8, &[u8]), ReadError>
    ensures { Decodes (λ x. (x.0, x.1.now)) result (byte_in bytes.now) }
{
    match bytes {
        [] => Err(ReadError::Fault(Fault::Short)),
        [byte, rest @ ..] => Ok((*byte, rest)),
    }
}

/// Returns a number of 32 bits, and the bytes after it.
pub fn u32_at(bytes: &[u8]) -> Result<(u32, &[u8]), ReadError>
    ensures { Decodes (λ x. (x.0, x.1.now)) result (number_in w32 bytes.now) }
{
    if bytes.len() < 4 {
        return Err(ReadError::Fault(Fault::Short));
    }
    let (front, rest) = bytes.split_at(4);
    let number = u32::from_be_bytes([front[0], front[1], front[2], front[3]]);
    Ok((number, rest))
}

/// Returns a number of 64 bits, and the bytes after it.
pub fn u64_at(bytes: &[u8]) -> Result<(u64, &[u8]), ReadError>
    ensures { Decodes (λ x. (x.0, x.1.now)) result (number_in w64 bytes.now) }
{
    if bytes.len() < 8 {
        return Err(ReadError::Fault(Fault::Short));
    }
    let (front, rest) = bytes.split_at(8);
    let number = u64::from_be_bytes([
        front[0], front[1], front[2], front[3], front[4], front[5], front[6], front[7],
    ]);
    Ok((number, rest))
}

/// Returns as many bytes as a number says, and those after them.
#[tactic(auto, unfolding(crate::specs::Reading::string_in))]
pub fn string_of(alloc: Global, bytes: &[u8]) -> Result<(Vec<u8>, &[u8]), ReadError>
    ensures { Decodes (λ x. (x.0.items, x.1.now)) result (string_in bytes.now) }
{
    let (len, rest) = u32_at(bytes)?;
    let len = len as usize;
    if rest.len() < len {
        return Err(ReadError::Fault(Fault::Short));
    }
    let (text, rest) = rest.split_at(len);
    Ok((Vec::from_slice(alloc, text)?, rest))
}

/// Returns the server of this number, if it is one.
pub fn server_named(number: u32) -> Option<ServerId>
    ensures { result ≡ server_named number }
{
    if number == 0 || number > u32::from(MAX_SERVER) {
        return None;
    }
    Some(ServerId::of(number as u16))
}

/// Returns how a request came, if this number has that meaning.
pub fn mode_named(number: u32) -> Option<Mode>
    ensures { result ≡ mode_named number }
{
    if number == 0 {
        return Some(Mode::Direct);
    }
    if number > u32::from(MAX_SERVER) {
        return None;
    }
    Some(Mode::Forwarded(ServerId::of(number as u16)))
}
