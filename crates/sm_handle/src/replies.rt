//! Replies of the sample service that handles keep.
ghost use Rattle.std.specs.Prelude.{◌≡◌, IfErr, IfOk, None};
ghost use Rattle.sm_handle_state.specs.Maps.{HasNoKeyAt, HasNoPair, HasNoText, HasNoTextAt, PairHeld, Replied};
ghost use Rattle.sm_handle_state.specs.Maps.{WritesHeldText, WritesKey, WritesText, reply_kept};

use crate::handle::Handle;
use sm_handle_state::replies::{held_in, held_text_in, key_in, parts_in, text_in};
use sm_handle_state::{ActFault, ReplyParts};

impl Handle {
    /// Returns the parts of the reply that the handle keeps.
    pub fn reply(&mut self) -> Result<ReplyParts, ActFault>
        ensures parts { IfOk result (Replied self.old.owned.state) }
        ensures refused { IfErr result
            (λ fault. (fault ≡ ActFault.WrongHandle) × (reply_kept self.old.owned.state ≡ None)) }
        ensures unchanged { self.new.owned.state ≡ self.old.owned.state }
    {
        if !self.full {
            return Err(ActFault::WrongHandle);
        }
        parts_in(self.owned.state_mut())
    }

    /// Writes the text that was replied: its length; or says why not, and nothing is written.
    pub fn text(&mut self, into: &mut [u8]) -> Result<usize, ActFault>
        ensures written { IfOk result (WritesText self.old.owned.state into.new) }
        ensures refused { IfErr result (HasNoText (reply_kept self.old.owned.state) into.old) }
        ensures unwritten { IfErr result (λ fault. into.new ≡ into.old) }
        ensures unchanged { self.new.owned.state ≡ self.old.owned.state }
    {
        if !self.full {
            return Err(ActFault::WrongHandle);
        }
        text_in(self.owned.state_mut(), into)
    }

    /// Returns the parts of the value in the pair at this place of the reply.
    pub fn pair(&mut self, at: usize) -> Result<ReplyParts, ActFault>
        ensures parts { IfOk result (PairHeld self.old.owned.state at) }
        ensures refused { IfErr result (HasNoPair (reply_kept self.old.owned.state) at) }
        ensures unchanged { self.new.owned.state ≡ self.old.owned.state }
    {
        if !self.full {
            return Err(ActFault::WrongHandle);
        }
        held_in(self.owned.state_mut(), at)
    }

    /// Writes the key of the pair at this place of the reply: its length, at most 255; or says why not, and nothing is
    /// written.
    pub fn pair_key(&mut self, at: usize, into: &mut [u8]) -> Result<usize, ActFault>
        ensures written { IfOk result (WritesKey self.old.owned.state at into.new) }
        ensures refused { IfErr result (HasNoKeyAt self.old.owned.state at into.old) }
        ensures unwritten { IfErr result (λ fault. into.new ≡ into.old) }
        ensures unchanged { self.new.owned.state ≡ self.old.owned.state }
    {
        if !self.full {
            return Err(ActFault::WrongHandle);
        }
        key_in(self.owned.state_mut(), at, into)
    }

    /// Writes the text in the pair at this place of the reply, and returns its length; or returns why it can't, and
    /// then nothing is written.
    pub fn pair_text(&mut self, at: usize, into: &mut [u8]) -> Result<usize, ActFault>
        ensures written { IfOk result (WritesHeldText self.old.owned.state at into.new) }
        ensures refused { IfErr result (HasNoTextAt self.old.owned.state at into.old) }
        ensures unwritten { IfErr result (λ fault. into.new ≡ into.old) }
        ensures unchanged { self.new.owned.state ≡ self.old.owned.state }
    {
        if !self.full {
            return Err(ActFault::WrongHandle);
        }
        held_text_in(self.owned.state_mut(), at, into)
    }
}
