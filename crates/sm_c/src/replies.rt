//! Replies of the sample service.
ghost use Rattle.std.specs.Prelude.{◌≡◌, ◌≢◌, Err};
ghost use Rattle.sm_handle.specs.Maps.{HasNoKeyAt, HasNoPair, HasNoText, HasNoTextAt, PairHeld, WritesHeldText};
ghost use Rattle.sm_handle.specs.Maps.{WritesKey, WritesText, reply_kept};
ghost use Rattle.sm_c.specs.Codes.{IsCodeOf};

use crate::codes::code_of_act;
use sm_handle::{ActFault, Handle, ReplyParts};

/// Writes the text that was replied, and its length.
#[unsafe(no_mangle)]
pub extern "C" fn durkenzo_reply_text(
    reply: &mut Handle,
    into: &mut [u8],
    length: &mut usize,
) -> u32
    ensures written { result ≡ 0 → WritesText reply.old.owned.state into.new length.new }
    ensures refused { result ≢ 0 → IsCodeOf (HasNoText (reply_kept reply.old.owned.state) into.old) result }
    ensures unwritten { result ≢ 0 → into.new ≡ into.old }
    ensures no_length { result ≢ 0 → length.new ≡ length.old }
    ensures unchanged { reply.new.owned.state ≡ reply.old.owned.state }
{
    let made = reply.text(into);
    code_of_written(made, length)
}

/// Writes the parts of the value in the pair at this place, from 0.
#[unsafe(no_mangle)]
pub extern "C" fn durkenzo_pair(reply: &mut Handle, at: usize, parts: &mut ReplyParts) -> u32
    ensures found { result ≡ 0 → PairHeld reply.old.owned.state at parts.new }
    ensures refused { result ≢ 0 → IsCodeOf (HasNoPair (reply_kept reply.old.owned.state) at) result }
    ensures unwritten { result ≢ 0 → parts.new ≡ parts.old }
    ensures unchanged { reply.new.owned.state ≡ reply.old.owned.state }
{
    match reply.pair(at) {
        Ok(made) => {
            *parts = made;
            0
        }
        Err(fault) => code_of_act(fault),
    }
}

/// Writes the key of the pair at this place, and its length, which is at most 255.
#[unsafe(no_mangle)]
pub extern "C" fn durkenzo_pair_key(
    reply: &mut Handle,
    at: usize,
    into: &mut [u8],
    length: &mut usize,
) -> u32
    ensures written { result ≡ 0 → WritesKey reply.old.owned.state at into.new length.new }
    ensures refused { result ≢ 0 → IsCodeOf (HasNoKeyAt reply.old.owned.state at into.old) result }
    ensures unwritten { result ≢ 0 → into.new ≡ into.old }
    ensures no_length { result ≢ 0 → length.new ≡ length.old }
    ensures unchanged { reply.new.owned.state ≡ reply.old.owned.state }
{
    let made = reply.pair_key(at, into);
    code_of_written(made, length)
}

/// Writes the text in the pair at this place, and its length.
#[unsafe(no_mangle)]
pub extern "C" fn durkenzo_pair_text(
    reply: &mut Handle,
    at: usize,
    into: &mut [u8],
    length: &mut usize,
) -> u32
    ensures written { result ≡ 0 → WritesHeldText reply.old.owned.state at into.new length.new }
    ensures refused { result ≢ 0 → IsCodeOf (HasNoTextAt reply.old.owned.state at into.old) result }
    ensures unwritten { result ≢ 0 → into.new ≡ into.old }
    ensures no_length { result ≢ 0 → length.new ≡ length.old }
    ensures unchanged { reply.new.owned.state ≡ reply.old.owned.state }
{
    let made = reply.pair_text(at, into);
    code_of_written(made, length)
}

// Returns the code of a result, and keeps its length.
fn code_of_written(made: Result<usize, ActFault>, length: &mut usize) -> u32
    ensures written { result ≡ 0 → made ≡ Ok length.new }
    ensures refused { result ≢ 0 → IsCodeOf (λ fault. made ≡ Err fault) result }
    ensures no_length { result ≢ 0 → length.new ≡ length.old }
{
    match made {
        Ok(written) => {
            *length = written;
            0
        }
        Err(fault) => code_of_act(fault),
    }
}
