//! Layouts that handles keep.
ghost use Rattle.std.specs.Prelude.{◌≡◌, IfErr, IfOk, OnOk};
ghost use Rattle.sm_handle_state.specs.Layouts.{CutsNothing, HasNoBound, IsLayoutOf, IsShardOf, KeepsNoLayout};
ghost use Rattle.sm_handle_state.specs.Layouts.{WritesBound};

use crate::handle::Handle;
use sm_handle_state::layouts::{bound_in, layout_of, shard_in};
use sm_handle_state::{ActFault, CutFault, HandleState, TextPart};
use sm_ranges::layout::{Layout, LayoutFault};
use sm_ranges::shard_id::ShardId;
use std::alloc::Global;

impl Handle {
    /// Keeps the layout whose bounds are these parts of the text, in place of the earlier state. If there is a fault,
    /// returns it, and the handle is as it was.
    pub fn cut(&mut self, alloc: Global, text: &[u8], parts: &[TextPart]) -> Result<(), CutFault>
        ensures made { OnOk result (IsLayoutOf self.new.owned.state text.now parts.now) }
        ensures refused { IfErr result (CutsNothing text.now parts.now) }
        ensures kept { IfErr result (λ fault. self.new.owned.state ≡ self.old.owned.state) }
    {
        let layout = layout_of(alloc, text, parts)?;
        match self.keep(alloc, HandleState::Layout(layout)) {
            Ok(()) => Ok(()),
            Err(_) => Err(CutFault::Layout(LayoutFault::NoMemory)),
        }
    }

    /// Returns the shard of the key, which may be any bytes, in the layout that the handle keeps.
    pub fn shard_of(&mut self, key: &[u8]) -> Result<ShardId, ActFault>
        ensures shard { IfOk result (IsShardOf self.old.owned.state key.now) }
        ensures refused { IfErr result (λ fault. (fault ≡ ActFault.WrongHandle) × KeepsNoLayout self.old.owned.state) }
        ensures unchanged { self.new.owned.state ≡ self.old.owned.state }
    {
        if !self.full {
            return Err(ActFault::WrongHandle);
        }
        shard_in(self.owned.state_mut(), key)
    }

    /// Writes the bound at which the shard begins, in the layout that the handle keeps: its length, at most 255; or why
    /// not, and nothing is written.
    pub fn bound(&mut self, k: ShardId, into: &mut [u8]) -> Result<usize, ActFault>
        ensures written { IfOk result (WritesBound self.old.owned.state k into.new) }
        ensures refused { IfErr result (HasNoBound self.old.owned.state k into.old) }
        ensures unwritten { IfErr result (λ fault. into.new ≡ into.old) }
        ensures unchanged { self.new.owned.state ≡ self.old.owned.state }
    {
        if !self.full {
            return Err(ActFault::WrongHandle);
        }
        bound_in(self.owned.state_mut(), k, into)
    }
}
