//! The effects of calls on layouts that handles keep.
ghost use Rattle.std.specs.Prelude.{◌≡◌, IfErr, IfNone, IfOk, IfSome, Some};
ghost use Rattle.sm_ranges.specs.LayoutFault.{texts_of};
ghost use Rattle.sm_handle_state.specs.Layouts.{CutsNothing, HasNoBound, IsOutside, IsShardOf, KeepsNoLayout};
ghost use Rattle.sm_handle_state.specs.Layouts.{WritesBound, part_of, parts_of};

use crate::act_fault::ActFault;
use crate::cut_fault::CutFault;
use crate::handle_state::HandleState;
use crate::text_part::TextPart;
use crate::written::write;
use sm_ranges::layout::{Layout, LayoutFault};
use sm_ranges::shard_id::ShardId;
use std::alloc::Global;

/// Returns the layout whose bounds are these parts of the text.
pub fn layout_of(alloc: Global, text: &[u8], parts: &[TextPart]) -> Result<Layout, CutFault>
    ensures made { IfOk result (λ layout. layout ≡ parts_of text.now parts.now) }
    ensures refused { IfErr result (CutsNothing text.now parts.now) }
{
    let bounds = bounds_of(alloc, text, parts)?;
    match Layout::new(alloc, &bounds) {
        Ok(layout) => Ok(layout),
        Err(fault) => Err(CutFault::Layout(fault)),
    }
}

fn bounds_of<'a>(
    alloc: Global,
    text: &'a [u8],
    parts: &[TextPart],
) -> Result<Vec<&'a [u8]>, CutFault>
    ensures made { IfOk result (λ bounds. texts_of bounds.items ≡ parts_of text.now parts.now) }
    ensures refused { IfErr result (CutsNothing text.now parts.now) }
{
    let mut bounds = Vec::new(alloc);
    for part in parts {
        let Some(bound) = part_in(text, *part) else {
            return Err(CutFault::Outside);
        };
        if bounds.push(bound).is_err() {
            return Err(CutFault::Layout(LayoutFault::NoMemory));
        }
    }
    Ok(bounds)
}

fn part_in<'a>(text: &'a [u8], part: TextPart) -> Option<&'a [u8]>
    ensures found { IfSome result (λ bound. bound.now ≡ part_of text.now part) }
    ensures outside { IfNone result (IsOutside text.now part) }
{
    text.get(part.start..part.end)
}

/// Returns the shard of the key in the state's layout.
pub fn shard_in(state: &HandleState, key: &[u8]) -> Result<ShardId, ActFault>
    ensures shard { IfOk result (IsShardOf (Some state.now) key.now) }
    ensures refused { IfErr result (λ fault. (fault ≡ ActFault.WrongHandle) × KeepsNoLayout (Some state.now)) }
{
    match state {
        HandleState::Layout(layout) => Ok(layout.shard_of(key)),
        _ => Err(ActFault::WrongHandle),
    }
}

/// Writes the bound at which the shard begins in the state's layout: its length; or why not, and nothing is written.
pub fn bound_in(state: &HandleState, k: ShardId, into: &mut [u8]) -> Result<usize, ActFault>
    ensures written { IfOk result (WritesBound (Some state.now) k into.new) }
    ensures refused { IfErr result (HasNoBound (Some state.now) k into.old) }
    ensures unwritten { IfErr result (λ fault. into.new ≡ into.old) }
{
    match state {
        HandleState::Layout(layout) => {
            if k.index() >= layout.count() {
                return Err(ActFault::UnknownShard);
            }
            let (low, _) = layout.range(k);
            write(low, into)
        }
        _ => Err(ActFault::WrongHandle),
    }
}
