ghost use Rattle.std.specs.Prelude.{◌≡◌, ◌+◌, ◌<◌, ◌≤◌, ◌++◌, ◌∷◌, [], length, max, replicate, sum};
ghost use Rattle.std.specs.Prelude.{slice_index_or, vec_capacity, ℕ, IfOk, IfErr, OnOk, OnErr, IsTrue};
ghost use Rattle.sm_arena.specs.Blocks.{chunks_in, bytes_at, next_span, IsWriting, IsWritingPair, IsGrown, IsFilled};
ghost use Rattle.sm_arena.specs.Blocks.{HasSpace, EndsJoined, IsSame};
ghost use Rattle.sm_arena.specs.Sizes.{sizes_in, joined_in, next_size, size_holding, least_after, HasGrown};

use crate::arena_block::ArenaBlock;
use crate::span::Span;
use std::alloc::{AllocError, Global};

/// The blocks of an arena, in the order in which they were made.
#[derive(Drop)]
pub(crate) struct Blocks {
    alloc: Global,
    pub(crate) blocks: Vec<ArenaBlock>,
    // The place of the block into which short pieces are written.
    filling: u32,
    // The least size of the next block that is made.
    least: u32,
    // The sum of the blocks' sizes.
    held: u128,
    ghost tied: { (least ≡ next_size (sizes_in blocks.items))
        × (held ≡ sum (sizes_in blocks.items) + sum (joined_in blocks.items)) },
}

const FIRST_BYTES: u32 = 1_024;

// A longer piece, or a longer pair, has a block of its own.
const BLOCK_BYTES: u32 = 65_536;

// How many bytes are copied at once inside the blocks.
const PART_BYTES: usize = 1_024;

// The span of an empty piece.
const NOTHING: Span = Span {
    chunk: 0,
    start: 0,
    length: 0,
};

impl Blocks {
    /// Makes an empty list of blocks.
    pub(crate) fn new(alloc: Global) -> Blocks
        ensures { result.blocks.items ≡ [] }
    {
        Blocks {
            alloc,
            blocks: Vec::new(alloc),
            filling: 0,
            least: FIRST_BYTES,
            held: 0,
        }
    }

    /// Returns the sum of the blocks' sizes.
    pub(crate) fn held(&self) -> u128
        ensures { result ≡ sum (sizes_in self.now.blocks.items) + sum (joined_in self.now.blocks.items) }
    {
        self.held
    }

    /// Writes the piece to a place that nothing was written to, and returns its span. An empty piece takes no block.
    pub(crate) fn write(&mut self, piece: &[u8]) -> Result<Span, AllocError>
        ensures written { IfOk result (λ span.
            IsWriting (chunks_in self.old.blocks.items) piece.now span (chunks_in self.new.blocks.items)) }
        ensures sizes { OnOk result
            (HasGrown (sizes_in self.old.blocks.items) (length piece.now) (sizes_in self.new.blocks.items)) }
        ensures joined { OnOk result (joined_in self.new.blocks.items ≡ joined_in self.old.blocks.items) }
        ensures err { OnErr result (self.new.blocks.items ≡ self.old.blocks.items) }
    {
        if piece.is_empty() {
            return Ok(NOTHING);
        }
        let chunk = self.block_for(piece.len())?;
        Ok(self.fill(chunk, piece))
    }

    /// Writes both pieces, or neither, to places that nothing was written to, and returns their spans. Empty pieces
    /// take no block.
    pub(crate) fn write_pair(
        &mut self,
        first: &[u8],
        second: &[u8],
    ) -> Result<(Span, Span), AllocError>
        ensures written { IfOk result (λ spans.
            IsWritingPair (chunks_in self.old.blocks.items) first.now second.now spans
            (chunks_in self.new.blocks.items)) }
        ensures sizes { OnOk result
            (HasGrown (sizes_in self.old.blocks.items) (length first.now + length second.now)
            (sizes_in self.new.blocks.items)) }
        ensures joined { OnOk result (joined_in self.new.blocks.items ≡ joined_in self.old.blocks.items) }
        ensures err { OnErr result (IsSame self.old.blocks.items self.new.blocks.items) }
    {
        let length = first.len() + second.len();
        if length == 0 {
            return Ok((NOTHING, NOTHING));
        }
        let chunk = self.block_for(length)?;
        let first_span = self.fill(chunk, first);
        let second_span = self.fill(chunk, second);
        Ok((first_span, second_span))
    }

    /// Writes the bytes at the span, followed by the tail, as one piece to a place that nothing was written to, and
    /// returns its span.
    pub(crate) fn write_joined(&mut self, head: Span, tail: &[u8]) -> Result<Span, AllocError>
        requires { length (bytes_at (chunks_in self.old.blocks.items) head) ≡ head.length }
        ensures written { IfOk result (λ span.
            IsWriting (chunks_in self.old.blocks.items) (bytes_at (chunks_in self.old.blocks.items) head ++ tail.now)
            span (chunks_in self.new.blocks.items)) }
        ensures sizes { OnOk result
            (HasGrown (sizes_in self.old.blocks.items)
            (length (bytes_at (chunks_in self.old.blocks.items) head ++ tail.now))
            (sizes_in self.new.blocks.items)) }
        ensures joined { OnOk result (joined_in self.new.blocks.items ≡ joined_in self.old.blocks.items) }
        ensures err { OnErr result (IsSame self.old.blocks.items self.new.blocks.items) }
    {
        if head.length == 0 {
            return self.write(tail);
        }
        let Ok(rest) = u32::try_from(tail.len()) else {
            return Err(AllocError);
        };
        let length = head.length.checked_add(rest).ok_or(AllocError)?;
        let chunk = self.block_for(length as usize)?;
        let start = self.written(chunk);
        self.copy(head, chunk);
        self.fill(chunk, tail);
        Ok(Span {
            chunk,
            start,
            length,
        })
    }

    /// Makes the memory of the piece a block, and returns its span; or hands the piece back.
    pub(crate) fn join(&mut self, piece: Vec<u8>) -> Result<Span, (Vec<u8>, AllocError)>
        ensures written { IfOk result (λ span.
            IsWriting (chunks_in self.old.blocks.items) piece.items span (chunks_in self.new.blocks.items)) }
        ensures chunks { OnOk result
            (chunks_in self.new.blocks.items ≡ chunks_in self.old.blocks.items ++ piece.items ∷ []) }
        ensures sizes { OnOk result (sizes_in self.new.blocks.items ≡ sizes_in self.old.blocks.items) }
        ensures joined { OnOk result
            (joined_in self.new.blocks.items ≡ joined_in self.old.blocks.items ++ vec_capacity piece ∷ []) }
        ensures ends { OnOk result (EndsJoined self.new.blocks.items) }
        ensures back { IfErr result (λ refused. refused.0.items ≡ piece.items) }
        ensures err { OnErr result (IsSame self.old.blocks.items self.new.blocks.items) }
    {
        let Ok(place) = u32::try_from(self.blocks.len()) else {
            return Err((piece, AllocError));
        };
        if let Err(refused) = self.blocks.reserve(1) {
            return Err((piece, refused));
        }
        match ArenaBlock::of(piece) {
            Err(piece) => Err((piece, AllocError)),
            Ok(block) => {
                let length = block.used();
                self.held += block.size() as u128;
                self.blocks.push_reserved(block);
                Ok(Span {
                    chunk: place,
                    start: 0,
                    length,
                })
            }
        }
    }

    /// Joins one piece as [`Blocks::join`] does and writes the other as [`Blocks::write`] does, or does neither.
    /// Returns their spans.
    pub(crate) fn join_and_write(
        &mut self,
        joined: Vec<u8>,
        written: &[u8],
    ) -> Result<(Span, Span), (Vec<u8>, AllocError)>
        ensures written { IfOk result (λ spans.
            IsWritingPair (chunks_in self.old.blocks.items) joined.items written.now spans
            (chunks_in self.new.blocks.items)) }
        ensures sizes { OnOk result
            (HasGrown (sizes_in self.old.blocks.items) (length written.now) (sizes_in self.new.blocks.items)) }
        ensures joined { OnOk result
            (joined_in self.new.blocks.items ≡ joined_in self.old.blocks.items ++ vec_capacity joined ∷ []) }
        ensures back { IfErr result (λ refused. refused.0.items ≡ joined.items) }
        ensures err { OnErr result (IsSame self.old.blocks.items self.new.blocks.items) }
    {
        let first = self.join(joined)?;
        match self.write(written) {
            Ok(second) => Ok((first, second)),
            Err(refused) => Err((self.part(), refused)),
        }
    }

    /// Returns the bytes at a span inside the blocks.
    pub(crate) fn piece(&self, span: Span) -> &[u8]
        requires { length (bytes_at (chunks_in self.now.blocks.items) span) ≡ span.length }
        ensures { result.now ≡ bytes_at (chunks_in self.now.blocks.items) span }
    {
        piece_in(&self.blocks, span)
    }

    // Returns how many bytes are written in a block.
    fn written(&self, place: u32) -> u32
        requires { place < length self.now.blocks.items }
        ensures { result ≡ length (slice_index_or (chunks_in self.now.blocks.items) place []) }
    {
        self.blocks[place as usize].used()
    }

    // Writes the piece into a block, which must have room for it, and returns its span.
    fn fill(&mut self, place: u32, piece: &[u8]) -> Span
        requires { HasSpace self.old.blocks.items place (length piece.now) }
        ensures span { result ≡ next_span (chunks_in self.old.blocks.items) place (length piece.now) }
        ensures filled { IsFilled self.old.blocks.items place piece.now self.new.blocks.items }
    {
        let start = self.written(place);
        let length = self.blocks[place as usize].write(piece);
        Span {
            chunk: place,
            start,
            length,
        }
    }

    // Writes the bytes at a span once more, into a block that must have room for them. From an earlier block it copies
    // them at once. Otherwise it goes part by part, because the span may be in that very block.
    fn copy(&mut self, span: Span, place: u32)
        requires inside { length (bytes_at (chunks_in self.old.blocks.items) span) ≡ span.length }
        requires room { HasSpace self.old.blocks.items place span.length }
        ensures { IsFilled self.old.blocks.items place
            (bytes_at (chunks_in self.old.blocks.items) span) self.new.blocks.items }
    {
        if span.chunk < place {
            copy_up(&mut self.blocks, span, place);
            return;
        }
        let mut copied = 0;
        while copied < span.length {
            let part = Span {
                chunk: span.chunk,
                start: span.start + copied,
                length: (PART_BYTES as u32).min(span.length - copied),
            };
            self.copy_part(part, place);
            copied += part.length;
        }
    }

    // Does the same for a short span, by a buffer.
    fn copy_part(&mut self, part: Span, place: u32)
        requires inside { length (bytes_at (chunks_in self.old.blocks.items) part) ≡ part.length }
        requires room { HasSpace self.old.blocks.items place part.length }
        requires short { part.length ≤ 1024 }
        ensures { IsFilled self.old.blocks.items place
            (bytes_at (chunks_in self.old.blocks.items) part) self.new.blocks.items }
    {
        let mut buffer = [0; PART_BYTES];
        let bytes = &mut buffer[..part.length as usize];
        bytes.copy_from_slice(self.piece(part));
        self.fill(place, bytes);
    }

    // Returns whether this many bytes can be written into the block that is being filled.
    fn has_room(&self, count: usize) -> bool
        ensures { IsTrue result → HasSpace self.now.blocks.items self.now.filling count }
    {
        match self.blocks.get(self.filling as usize) {
            Some(block) => count <= block.room(),
            None => false,
        }
    }

    // Returns the place of a block into which this many bytes can be written: the one that is being filled, or a new
    // one. Only a new block costs a call, because each piece asks for this.
    #[inline(always)]
    fn block_for(&mut self, count: usize) -> Result<u32, AllocError>
        requires { 0 < count }
        ensures room { IfOk result (λ place. HasSpace self.new.blocks.items place count) }
        ensures grown { IsGrown (chunks_in self.old.blocks.items) (chunks_in self.new.blocks.items) }
        ensures sizes { OnOk result (HasGrown (sizes_in self.old.blocks.items) count (sizes_in self.new.blocks.items)) }
        ensures joined { OnOk result (joined_in self.new.blocks.items ≡ joined_in self.old.blocks.items) }
        ensures err { OnErr result (self.new.blocks.items ≡ self.old.blocks.items) }
    {
        if self.has_room(count) {
            return Ok(self.filling);
        }
        self.new_block(count)
    }

    // Returns the place of a new block, into which this many bytes can be written.
    #[inline(never)]
    fn new_block(&mut self, count: usize) -> Result<u32, AllocError>
        requires { 0 < count }
        ensures room { IfOk result (λ place. HasSpace self.new.blocks.items place count) }
        ensures grown { IsGrown (chunks_in self.old.blocks.items) (chunks_in self.new.blocks.items) }
        ensures sizes { OnOk result (HasGrown (sizes_in self.old.blocks.items) count (sizes_in self.new.blocks.items)) }
        ensures joined { OnOk result (joined_in self.new.blocks.items ≡ joined_in self.old.blocks.items) }
        ensures err { OnErr result (self.new.blocks.items ≡ self.old.blocks.items) }
    {
        let (Ok(place), Ok(count)) = (u32::try_from(self.blocks.len()), u32::try_from(count)) else {
            return Err(AllocError);
        };
        self.grow(block_size(self.least.max(count)))?;
        self.filling = if count <= BLOCK_BYTES {
            place
        } else {
            self.filling
        };
        Ok(place)
    }

    // Makes one more block of this many bytes.
    fn grow(&mut self, size: u32) -> Result<(), AllocError>
        ensures room { OnOk result (HasSpace self.new.blocks.items (length self.old.blocks.items) size) }
        ensures chunks { OnOk result
            (chunks_in self.new.blocks.items ≡ chunks_in self.old.blocks.items ++ replicate 1 []) }
        ensures sizes { OnOk result (sizes_in self.new.blocks.items ≡ sizes_in self.old.blocks.items ++ size ∷ []) }
        ensures joined { OnOk result (joined_in self.new.blocks.items ≡ joined_in self.old.blocks.items) }
        ensures err { OnErr result (self.new.blocks.items ≡ self.old.blocks.items) }
    {
        self.blocks.reserve(1)?;
        let block = ArenaBlock::new(self.alloc, size)?;
        self.held += size as u128;
        self.least = next_least(self.least, size);
        self.blocks.push_reserved(block);
        Ok(())
    }

    // Takes back the last block's memory.
    fn part(&mut self) -> Vec<u8>
        requires some { 0 < length self.old.blocks.items }
        requires joined { EndsJoined self.old.blocks.items }
        ensures chunks { chunks_in self.old.blocks.items ≡ chunks_in self.new.blocks.items ++ result.items ∷ [] }
        ensures sizes { sizes_in self.new.blocks.items ≡ sizes_in self.old.blocks.items }
        ensures joined { (size : ℕ)
            × (joined_in self.old.blocks.items ≡ joined_in self.new.blocks.items ++ size ∷ []) }
    {
        let block = self.blocks.take_last();
        self.held -= block.size() as u128;
        block.into_bytes()
    }
}

// Returns the bytes at a span inside the blocks.
fn piece_in(blocks: &[ArenaBlock], span: Span) -> &[u8]
    requires { length (bytes_at (chunks_in blocks.now) span) ≡ span.length }
    ensures { result.now ≡ bytes_at (chunks_in blocks.now) span }
{
    if span.length == 0 {
        return &[];
    }
    let start = span.start as usize;
    &blocks[span.chunk as usize].written()[start..start + span.length as usize]
}

// Writes the bytes at a span of an earlier block into a block, which must have room for them.
fn copy_up(blocks: &mut [ArenaBlock], span: Span, place: u32)
    requires inside { length (bytes_at (chunks_in blocks.old) span) ≡ span.length }
    requires room { HasSpace blocks.old place span.length }
    requires earlier { span.chunk < place }
    ensures { IsFilled blocks.old place (bytes_at (chunks_in blocks.old) span) blocks.new }
{
    let (before, rest) = blocks.split_at_mut(place as usize);
    rest[0].write(piece_in(before, span));
}

// Returns the least size of blocks that holds this many bytes, or exactly this many if no size does.
fn block_size(count: u32) -> u32
    ensures value { result ≡ size_holding count }
    ensures holds { (count ≤ result) × (result ≤ max 65536 count) }
{
    match count {
        0..=1_024 => 1_024,
        1_025..=2_048 => 2_048,
        2_049..=4_096 => 4_096,
        4_097..=8_192 => 8_192,
        8_193..=16_384 => 16_384,
        16_385..=32_768 => 32_768,
        32_769..=65_536 => 65_536,
        _ => count,
    }
}

// Returns the least size of the block after one of this size, if it was `least` for that one.
fn next_least(least: u32, size: u32) -> u32
    ensures { result ≡ least_after least size }
{
    if size <= BLOCK_BYTES {
        return least.max(BLOCK_BYTES.min(size * 2));
    }
    least
}
