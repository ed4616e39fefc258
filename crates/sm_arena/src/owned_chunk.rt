ghost use Rattle.std.specs.Prelude.{◌≡◌, ◌+◌, ◌≤◌, [], ◌++◌, length, IfOk};

use crate::chunk::Chunk;
use std::alloc::{AllocError, Global};

/// A chunk with the allocator that frees it when it is dropped.
pub(crate) struct OwnedChunk {
    alloc: Global,
    chunk: Chunk<Global>,
    ghost tied: { chunk.alloc ≡ alloc },
}

impl Drop for OwnedChunk {
    fn drop(self) {
        let OwnedChunk { alloc, chunk } = self;
        chunk.free(&alloc);
    }
}

impl OwnedChunk {
    /// Makes a chunk of this many bytes, in which nothing is written.
    pub(crate) fn new(alloc: Global, size: u32) -> Result<OwnedChunk, AllocError>
        ensures { IfOk result (λ owned. (owned.chunk.size ≡ size) × (owned.chunk.bytes ≡ [])) }
    {
        let chunk = Chunk::make(&alloc, size as usize).ok_or(AllocError)?;
        Ok(OwnedChunk { alloc, chunk })
    }

    /// Returns the bytes written so far.
    pub(crate) fn bytes(&self) -> &[u8]
        ensures { result.now ≡ self.now.chunk.bytes }
    {
        self.chunk.bytes()
    }

    /// Writes the piece after the bytes written so far.
    pub(crate) fn write(&mut self, piece: &[u8])
        requires { length self.old.chunk.bytes + length piece.now ≤ self.old.chunk.size }
        ensures bytes { self.new.chunk.bytes ≡ self.old.chunk.bytes ++ piece.now }
        ensures same { self.new.chunk.size ≡ self.old.chunk.size }
    {
        self.chunk.write(piece);
    }
}
