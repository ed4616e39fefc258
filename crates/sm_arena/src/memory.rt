use crate::owned_chunk::OwnedChunk;

/// The memory of a block.
#[derive(Drop)]
pub(crate) enum Memory {
    /// A chunk that the arena made.
    Made(OwnedChunk),
    /// The memory of a piece that joined.
    Joined(Vec<u8>),
}

impl Memory {
    ghost use Rattle.std.specs.Prelude.{◌≡◌};
    ghost use Rattle.sm_arena.specs.Memory.{bytes_in};

    /// Returns the bytes written so far.
    pub(crate) fn bytes(&self) -> &[u8]
        ensures { result.now ≡ bytes_in self.now }
    {
        match self {
            Memory::Made(chunk) => chunk.bytes(),
            Memory::Joined(bytes) => bytes,
        }
    }
}
