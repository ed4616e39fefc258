ghost use Rattle.std.specs.Prelude.{◌≡◌, IfOk, OnErr};
ghost use Rattle.sm_map.specs.Stored.{IsStored};
ghost use Rattle.sm_map.specs.Val.{held_of};

use crate::slot::Slot;
use crate::val::Val;
use sm_arena::arena::Arena;
use sm_arena::span::Span;
use std::alloc::AllocError;

// A key and its value, with their bytes in an arena.
#[derive(Clone, Copy)]
pub(crate) struct KeyEntry {
    pub(crate) key: Span,
    pub(crate) slot: Slot,
}

impl KeyEntry {
    ghost use Rattle.sm_map.specs.KeyEntry.{pair_of, uses_entry};

    // Places the key and the text of the value, both or neither.
    #[tactic(auto, using(crate::proofs::Entries::pair_reads, crate::proofs::Entries::count_reads))]
    pub(crate) fn place(
        arena: &mut Arena,
        key: &[u8],
        value: Val<'_>,
    ) -> Result<KeyEntry, AllocError>
        ensures stored { IfOk result (λ entry. IsStored arena.old (uses_entry entry) arena.new) }
        ensures reads { IfOk result
            (λ entry. pair_of arena.new.placed entry ≡ record { key = key.now; value = held_of value.entry }) }
        ensures err { OnErr result (arena.new ≡ arena.old) }
    {
        match value {
            Val::Text(text) => {
                let (key, text) = arena.place_pair(key, text)?;
                Ok(KeyEntry {
                    key,
                    slot: Slot::Text(text),
                })
            }
            Val::Count(count) => {
                let key = arena.place(key)?;
                Ok(KeyEntry {
                    key,
                    slot: Slot::Count(count),
                })
            }
        }
    }
}
