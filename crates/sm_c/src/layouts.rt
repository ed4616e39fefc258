//! Layouts.
ghost use Rattle.std.specs.Prelude.{◌≡◌, ◌≢◌, ◌<◌, ◌⊎◌};
ghost use Rattle.sm_ranges.specs.declared.limits.TheConstants.{MAX_SHARD};
ghost use Rattle.sm_handle.specs.Layouts.{CutsNothing, HasNoBound, IsLayoutOf, IsShardOf, KeepsNoLayout, WritesBound};
ghost use Rattle.sm_handle.specs.CutFault.{CutFault as CutFaultValue};
ghost use Rattle.sm_c.specs.Codes.{IsCodeOf, cut_fault_code};

use crate::codes::{UNKNOWN_SHARD, WRONG_HANDLE, code_of_act, code_of_cut};
use sm_handle::{Handle, TextPart};
use sm_ranges::shard_id::ShardId;
use std::alloc::Global;

/// Makes a layout whose bounds are these parts of the text. The handle keeps it, in place of its earlier state.
#[unsafe(no_mangle)]
pub extern "C" fn durkenzo_layout(
    alloc: Global,
    layout: &mut Handle,
    text: &[u8],
    parts: &[TextPart],
) -> u32
    ensures made { result ≡ 0 → IsLayoutOf layout.new.owned.state text.now parts.now }
    ensures refused { result ≢ 0
        → (fault : CutFaultValue) × CutsNothing text.now parts.now fault × (result ≡ cut_fault_code fault) }
    ensures kept { result ≢ 0 → layout.new.owned.state ≡ layout.old.owned.state }
{
    match layout.cut(alloc, text, parts) {
        Ok(()) => 0,
        Err(fault) => code_of_cut(fault),
    }
}

/// Writes the shard of the key, which may be any bytes.
#[unsafe(no_mangle)]
pub extern "C" fn durkenzo_shard_of(layout: &mut Handle, key: &[u8], shard: &mut u16) -> u32
    ensures found { result ≡ 0 → IsShardOf layout.old.owned.state key.now shard.new }
    ensures refused { result ≢ 0 → (result ≡ WRONG_HANDLE) × KeepsNoLayout layout.old.owned.state }
    ensures unwritten { result ≢ 0 → shard.new ≡ shard.old }
    ensures unchanged { layout.new.owned.state ≡ layout.old.owned.state }
{
    match layout.shard_of(key) {
        Ok(found) => {
            *shard = found.number();
            0
        }
        Err(fault) => code_of_act(fault),
    }
}

/// Writes the bound at which the shard begins, and its length, which is at most 255.
#[unsafe(no_mangle)]
pub extern "C" fn durkenzo_bound(
    layout: &mut Handle,
    shard: u16,
    into: &mut [u8],
    length: &mut usize,
) -> u32
    ensures written { result ≡ 0 → WritesBound layout.old.owned.state shard into.new length.new }
    ensures refused { result ≢ 0 → ((result ≡ UNKNOWN_SHARD) × (MAX_SHARD < shard))
        ⊎ IsCodeOf (HasNoBound layout.old.owned.state shard into.old) result }
    ensures unwritten { result ≢ 0 → into.new ≡ into.old }
    ensures no_length { result ≢ 0 → length.new ≡ length.old }
    ensures unchanged { layout.new.owned.state ≡ layout.old.owned.state }
{
    let Some(k) = ShardId::new(shard) else {
        return UNKNOWN_SHARD;
    };
    match layout.bound(k, into) {
        Ok(written) => {
            *length = written;
            0
        }
        Err(fault) => code_of_act(fault),
    }
}
