ghost use Rattle.std.specs.Prelude.{◌≡◌, ◌+◌, ◌<◌, ◌≤◌, ◌^◌, [], ◌++◌, ◌∷◌, length, IfOk, IfErr};
ghost use Rattle.sm_arena.specs.Memory.{bytes_in, limit_in, size_in, made_size, joined_size, IsJoined};
ghost use Rattle.sm_arena.specs.declared.memory.Memory.TheVariants.{Joined};

use crate::memory::Memory;
use crate::owned_chunk::OwnedChunk;
use std::alloc::{AllocError, Global};

/// Memory that is filled from its start. It never grows, so written bytes never move.
#[derive(Drop)]
pub(crate) struct ArenaBlock {
    memory: Memory,
    used: u32,
    // How many bytes may be written in all. In memory that joined, this is only the length of the piece.
    limit: u32,
    ghost written: { used ≡ length (bytes_in memory) },
    ghost filled: { used ≤ limit },
    ghost limited: { limit ≡ limit_in memory },
    ghost small: { limit < 2 ^ 32 },
}

impl ArenaBlock {
    /// Makes a block of this many bytes, in which nothing is written.
    pub(crate) fn new(alloc: Global, size: u32) -> Result<ArenaBlock, AllocError>
        ensures limit { IfOk result (λ block. block.limit ≡ size) }
        ensures made { IfOk result (λ block. made_size block.memory ≡ size ∷ []) }
        ensures joined { IfOk result (λ block. joined_size block.memory ≡ []) }
        ensures written { IfOk result (λ block. bytes_in block.memory ≡ []) }
    {
        let chunk = OwnedChunk::new(alloc, size)?;
        Ok(ArenaBlock {
            memory: Memory::Made(chunk),
            used: 0,
            limit: size,
        })
    }

    /// Makes the bytes a block that is full. If there are 2^32 or more, they come back.
    pub(crate) fn of(bytes: Vec<u8>) -> Result<ArenaBlock, Vec<u8>>
        ensures memory { IfOk result (λ block. block.memory ≡ Joined bytes) }
        ensures err { IfErr result (λ back. back.items ≡ bytes.items) }
    {
        match u32::try_from(bytes.len()) {
            Ok(length) => Ok(ArenaBlock {
                memory: Memory::Joined(bytes),
                used: length,
                limit: length,
            }),
            Err(_) => Err(bytes),
        }
    }

    /// Returns the bytes that joined, with their memory.
    pub(crate) fn into_bytes(self) -> Vec<u8>
        requires { IsJoined self.memory }
        ensures { result.items ≡ bytes_in self.memory }
    {
        let ArenaBlock {
            memory,
            used: _,
            limit: _,
        } = self;
        match memory {
            Memory::Joined(bytes) => bytes,
            Memory::Made(_) => unreachable!(),
        }
    }

    /// Returns how many bytes of memory it holds.
    pub(crate) fn size(&self) -> usize
        ensures { result ≡ size_in self.now.memory }
    {
        match &self.memory {
            Memory::Made(_) => self.limit as usize,
            Memory::Joined(bytes) => bytes.capacity(),
        }
    }

    /// Returns the bytes written so far.
    pub(crate) fn written(&self) -> &[u8]
        ensures { result.now ≡ bytes_in self.now.memory }
    {
        self.memory.bytes()
    }

    /// Returns how many bytes are written so far.
    pub(crate) fn used(&self) -> u32
        ensures { result ≡ length (bytes_in self.now.memory) }
    {
        self.used
    }

    /// Returns how many bytes can still be written.
    pub(crate) fn room(&self) -> usize
        ensures { length (bytes_in self.now.memory) + result ≡ self.now.limit }
    {
        (self.limit - self.used) as usize
    }

    /// Writes the piece after the bytes written so far, and returns its length.
    pub(crate) fn write(&mut self, piece: &[u8]) -> u32
        requires { length (bytes_in self.old.memory) + length piece.now ≤ self.old.limit }
        ensures bytes { bytes_in self.new.memory ≡ bytes_in self.old.memory ++ piece.now }
        ensures limit { self.new.limit ≡ self.old.limit }
        ensures made { made_size self.new.memory ≡ made_size self.old.memory }
        ensures joined { joined_size self.new.memory ≡ joined_size self.old.memory }
        ensures length { result ≡ length piece.now }
    {
        let length = piece.len() as u32;
        match &mut self.memory {
            Memory::Made(chunk) => chunk.write(piece),
            // No room is left there, so the piece is empty.
            Memory::Joined(_) => {}
        }
        self.used += length;
        length
    }
}
