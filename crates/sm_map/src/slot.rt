ghost use Rattle.std.specs.Prelude.{◌≡◌, Some, ◌++◌, IfOk, OnErr};
ghost use Rattle.sm_map.specs.KeyMap.{text_of, IsText};
ghost use Rattle.sm_map.specs.KeyMap.{Text as HeldText};
ghost use Rattle.sm_map.specs.Stored.{IsStored};
ghost use Rattle.sm_map.specs.Val.{held_of};
ghost use Rattle.sm_map.specs.Slot.{held_in, uses_slot, IsReadable, IsForgettable, forgetting_slot};

use crate::val::Val;
use sm_arena::arena::Arena;
use sm_arena::span::Span;
use std::alloc::AllocError;

// A key's value, with its text in an arena.
#[derive(Clone, Copy)]
pub(crate) enum Slot {
    Text(Span),
    Count(i64),
}

impl Slot {
    // Places the text of a value.
    #[tactic(auto, using(crate::proofs::Spans::piece_stored))]
    pub(crate) fn place(arena: &mut Arena, value: Val<'_>) -> Result<Slot, AllocError>
        ensures stored { IfOk result (λ slot. IsStored arena.old (uses_slot slot) arena.new) }
        ensures reads { IfOk result (λ slot. held_in arena.new.placed slot ≡ held_of value.entry) }
        ensures err { OnErr result (arena.new ≡ arena.old) }
    {
        match value {
            Val::Text(text) => Ok(Slot::Text(arena.place(text)?)),
            Val::Count(count) => Ok(Slot::Count(count)),
        }
    }

    // Places the slot's text followed by the tail, as one text. A count doesn't change.
    #[tactic(auto, using(crate::proofs::Spans::piece_stored))]
    pub(crate) fn concat(self, arena: &mut Arena, tail: &[u8]) -> Result<Slot, AllocError>
        requires readable { IsReadable arena.old.placed self }
        requires text { IsText (held_in arena.old.placed self) }
        ensures stored { IfOk result (λ slot. IsStored arena.old (uses_slot slot) arena.new) }
        ensures reads { IfOk result (λ slot. held_in arena.new.placed slot
            ≡ HeldText (text_of (Some (held_in arena.old.placed self)) ++ tail.now)) }
        ensures err { OnErr result (arena.new ≡ arena.old) }
    {
        match self {
            Slot::Text(span) => Ok(Slot::Text(arena.concat(span, tail)?)),
            Slot::Count(count) => Ok(Slot::Count(count)),
        }
    }

    // Returns the slot's value.
    pub(crate) fn read(self, arena: &Arena) -> Val<'_>
        requires { IsReadable arena.now.placed self }
        ensures { held_of result ≡ held_in arena.now.placed self }
    {
        match self {
            Slot::Text(span) => Val::Text(arena.get(span)),
            Slot::Count(count) => Val::Count(count),
        }
    }

    // Forgets the slot's text.
    pub(crate) fn forget(self, arena: &mut Arena)
        requires { IsForgettable arena.old self }
        ensures { arena.new ≡ forgetting_slot arena.old self }
    {
        if let Slot::Text(span) = self {
            arena.forget(span);
        }
    }
}
