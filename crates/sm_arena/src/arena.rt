ghost use Rattle.std.specs.Prelude.{◌≡◌, ◌+◌, ◌<◌, ◌≤◌, ◌++◌, ◌∷◌, [], length, sum, vec_capacity};
ghost use Rattle.std.specs.Prelude.{OnErr, OnOk, IfErr, IfOk};
ghost use Rattle.sm_arena.specs.Pieces.{IsPlaced, bytes_of};
ghost use Rattle.sm_arena.specs.Sizes.{HasGrown};
ghost use Rattle.sm_arena.specs.Value.{IsPlacing, IsPlacingPair, forgetting, times_forgotten, dead_of, live_of};

use crate::blocks::Blocks;
use crate::span::Span;
use sm_trace::trace::Trace;
use std::alloc::{AllocError, Global};
use std::marker::Model;

/// Memory for pieces of bytes. A piece stays at its place, and reads the same, until the arena is dropped.
///
/// In contracts an arena is the pieces that were placed, by their spans, the list of the spans that were forgotten, the
/// sizes of the chunks that it made, and the capacities of the pieces that joined, in bytes. The first chunk has 1,024
/// bytes. Each next one has at least twice as many as any earlier chunk of up to 65,536 bytes, and at most 65,536. If a
/// size doesn't hold the piece or the pair, it is skipped. A piece or a pair of more than 65,536 bytes has a chunk of
/// exactly its size. If a piece joins, its memory is a chunk of its own, on which no size of a later one depends. A
/// piece of 2^32 bytes or more, or more than 2^32 chunks, are refused like memory.
#[derive(Drop)]
pub struct Arena {
    blocks: Blocks,
    live: u128,
    gone: u128,
    placed: Trace<Span>,
    forgotten: Trace<Span>,
}

impl Model for Arena {
    ghost use Rattle.sm_arena.specs.Value.{ArenaValue};

    ghost Value = { ArenaValue };

    ghost use Rattle.sm_arena.specs.Kept.{arena_value, KeepsArena};

    ghost view = { arena_value };

    ghost invariant = { KeepsArena };
}

impl Arena {
    /// Makes an empty arena. It has no chunk yet.
    pub fn new(alloc: Global) -> Arena
        ensures placed { (result.placed ≡ []) × (result.forgotten ≡ []) }
        ensures sizes { (result.sizes ≡ []) × (result.joined ≡ []) }
    {
        Arena {
            blocks: Blocks::new(alloc),
            live: 0,
            gone: 0,
            placed: Trace::empty(),
            forgotten: Trace::empty(),
        }
    }

    /// Places a copy of the piece, and returns the span that reads it from now on. If the piece isn't empty, the span
    /// is a new one.
    ///
    /// # Errors
    ///
    /// `AllocError` if memory is refused, or if the piece has 2^32 bytes or more. The arena then doesn't change.
    pub fn place(&mut self, piece: &[u8]) -> Result<Span, AllocError>
        ensures placed { IfOk result (λ span. IsPlacing self.old piece.now span self.new) }
        ensures sizes { OnOk result (HasGrown self.old.sizes (length piece.now) self.new.sizes) }
        ensures joined { OnOk result (self.new.joined ≡ self.old.joined) }
        ensures err { OnErr result (self.new ≡ self.old) }
    {
        let span = self.blocks.write(piece)?;
        self.live += piece.len() as u128;
        self.placed.push(&span);
        Ok(span)
    }

    /// Places copies of both pieces as [`Arena::place`] does, or neither, and returns their spans.
    ///
    /// # Errors
    ///
    /// `AllocError` if memory is refused, or if both have 2^32 bytes or more together. The arena then doesn't change.
    pub fn place_pair(&mut self, first: &[u8], second: &[u8]) -> Result<(Span, Span), AllocError>
        ensures placed { IfOk result (λ spans. IsPlacingPair self.old first.now second.now spans self.new) }
        ensures sizes { OnOk result (HasGrown self.old.sizes (length first.now + length second.now) self.new.sizes) }
        ensures joined { OnOk result (self.new.joined ≡ self.old.joined) }
        ensures err { OnErr result (self.new ≡ self.old) }
    {
        let (first_span, second_span) = self.blocks.write_pair(first, second)?;
        self.live += first.len() as u128;
        self.live += second.len() as u128;
        self.placed.push(&first_span);
        self.placed.push(&second_span);
        Ok((first_span, second_span))
    }

    /// Places the piece as [`Arena::place`] does, but makes its memory a chunk of the arena instead of copying it. The
    /// arena holds the piece's whole capacity, its spare room stays free, and no later chunk's size depends on it.
    ///
    /// # Errors
    ///
    /// `AllocError` with the piece if memory is refused, or if the piece has 2^32 bytes or more. The arena then doesn't
    /// change.
    pub fn join(&mut self, piece: Vec<u8>) -> Result<Span, (Vec<u8>, AllocError)>
        ensures placed { IfOk result (λ span. IsPlacing self.old piece.items span self.new) }
        ensures sizes { OnOk result (self.new.sizes ≡ self.old.sizes) }
        ensures joined { OnOk result (self.new.joined ≡ self.old.joined ++ vec_capacity piece ∷ []) }
        ensures handed_back { IfErr result (λ back. back.0.items ≡ piece.items) }
        ensures err { OnErr result (self.new ≡ self.old) }
    {
        let count = piece.len();
        let span = self.blocks.join(piece)?;
        self.live += count as u128;
        self.placed.push(&span);
        Ok(span)
    }

    /// Places one piece as [`Arena::join`] does and the other as [`Arena::place`] does, or neither, and returns their
    /// spans.
    ///
    /// # Errors
    ///
    /// `AllocError` with the piece that was to join, if memory is refused, or if this piece or the other one has 2^32
    /// bytes or more. The arena then doesn't change.
    pub fn join_and_place(
        &mut self,
        joined: Vec<u8>,
        placed: &[u8],
    ) -> Result<(Span, Span), (Vec<u8>, AllocError)>
        ensures placed { IfOk result (λ spans. IsPlacingPair self.old joined.items placed.now spans self.new) }
        ensures sizes { OnOk result (HasGrown self.old.sizes (length placed.now) self.new.sizes) }
        ensures joined { OnOk result (self.new.joined ≡ self.old.joined ++ vec_capacity joined ∷ []) }
        ensures handed_back { IfErr result (λ back. back.0.items ≡ joined.items) }
        ensures err { OnErr result (self.new ≡ self.old) }
    {
        let count = joined.len();
        let (joined_span, placed_span) = self.blocks.join_and_write(joined, placed)?;
        self.live += count as u128;
        self.live += placed.len() as u128;
        self.placed.push(&joined_span);
        self.placed.push(&placed_span);
        Ok((joined_span, placed_span))
    }

    /// Places a copy of the piece at the span, followed by the tail, as one piece, and returns the span that reads it
    /// from now on. If the piece isn't empty, the span is a new one. The piece at the old span stays.
    ///
    /// # Errors
    ///
    /// `AllocError` if memory is refused, or if the whole has 2^32 bytes or more. The arena then doesn't change.
    pub fn concat(&mut self, head: Span, tail: &[u8]) -> Result<Span, AllocError>
        requires { IsPlaced self.old.placed head }
        ensures placed { IfOk result
            (λ span. IsPlacing self.old (bytes_of self.old.placed head ++ tail.now) span self.new) }
        ensures sizes { OnOk result
            (HasGrown self.old.sizes (length (bytes_of self.old.placed head ++ tail.now)) self.new.sizes) }
        ensures joined { OnOk result (self.new.joined ≡ self.old.joined) }
        ensures err { OnErr result (self.new ≡ self.old) }
    {
        let span = self.blocks.write_joined(head, tail)?;
        self.live += span.length as u128;
        self.placed.push(&span);
        Ok(span)
    }

    /// Returns the bytes of the piece at the span, even if it was forgotten.
    pub fn get(&self, span: Span) -> &[u8]
        requires { IsPlaced self.now.placed span }
        ensures { result.now ≡ bytes_of self.now.placed span }
    {
        self.blocks.piece(span)
    }

    /// Counts the piece at the span as dead. It must not be forgotten yet. Its bytes stay. An empty piece is never
    /// dead.
    pub fn forget(&mut self, span: Span)
        requires placed { IsPlaced self.old.placed span }
        requires kept { 0 < length (bytes_of self.old.placed span) → times_forgotten self.old span ≡ 0 }
        ensures { self.new ≡ forgetting self.old span }
    {
        if span.length > 0 {
            self.live -= span.length as u128;
            self.gone += span.length as u128;
            self.forgotten.push(&span);
        }
    }

    /// Returns the sum of the lengths of the pieces that were placed and not forgotten.
    pub fn bytes(&self) -> u128
        ensures { result ≡ live_of self.now }
    {
        self.live
    }

    /// Returns the sum of the chunks' sizes in bytes. For a piece that joined, this is its capacity.
    pub fn held(&self) -> u128
        ensures value { result ≡ sum self.now.sizes + sum self.now.joined }
        ensures covers { live_of self.now + dead_of self.now ≤ result }
    {
        self.blocks.held()
    }

    /// Returns the sum of the lengths of the pieces that were forgotten.
    pub fn dead(&self) -> u128
        ensures { result ≡ dead_of self.now }
    {
        self.gone
    }
}
