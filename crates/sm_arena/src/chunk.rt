// The functions with pointers. Each is proved by hand, and the rest of the crate is safe code over them.
ghost use Rattle.std.specs.Prelude.{◌≡◌, ◌+◌, ◌<◌, ◌≤◌, ◌^◌, ℕ, List, [], ◌++◌, length, IfSome};
ghost use Rattle.sm_arena.specs.Ownership.{chunk_owns, chunk_lends};

use std::alloc::Allocator;
use std::marker::{Model, PhantomData};

/// Raw memory that is filled from its start and never moves. It isn't `Drop`: its owner must end it by [`Chunk::free`],
/// with the allocator that made it.
pub(crate) struct Chunk<A: Allocator> {
    at: *mut u8,
    size: usize,
    used: usize,
    marker: PhantomData<*const A>,
    pub ghost alloc: { A },
    pub ghost bytes: { List ℕ },
    ghost fits: { (used ≡ length bytes) × (used ≤ size) × (size < 2 ^ 63) },
}

impl<A: Allocator> Model for Chunk<A> {
    ghost also_owns = { λ c. chunk_owns (A.dealloc_token c.alloc) c.at c.size c.used c.bytes };

    ghost also_shares = { λ c _ κ. chunk_lends c.at c.used c.bytes κ };
}

unsafe impl<A: Allocator + Send> Send for Chunk<A> {}

unsafe impl<A: Allocator + Sync> Sync for Chunk<A> {}

impl<A: Allocator> Chunk<A> {
    /// Makes a chunk of this many bytes, in which nothing is written. Returns `None` if memory is refused.
    pub(crate) fn make(alloc: &A, size: usize) -> Option<Chunk<A>>
        requires { size < 2 ^ 63 }
        ensures { IfSome result (λ chunk. (chunk.alloc ≡ alloc.now) × (chunk.size ≡ size) × (chunk.bytes ≡ [])) }
    {
        match alloc.allocate(size, 1) {
            Ok(at) => Some(Chunk {
                at,
                size,
                used: 0,
                marker: PhantomData,
            }),
            Err(_) => None,
        }
    }

    /// Writes the piece after the bytes written so far.
    pub(crate) fn write(&mut self, piece: &[u8])
        requires { length self.old.bytes + length piece.now ≤ self.old.size }
        ensures bytes { self.new.bytes ≡ self.old.bytes ++ piece.now }
        ensures same { (self.new.size ≡ self.old.size) × (self.new.alloc ≡ self.old.alloc) }
    {
        let count = piece.len();
        let used = self.used;
        let mut i = 0;
        unsafe {
            let from = piece.as_ptr();
            let to = self.at.add(used);
            // LLVM widens this loop to many bytes a turn. We can't use `copy_nonoverlapping`, because it moves values
            // out of its source, and this piece is only lent.
            while i < count {
                to.add(i).write(from.add(i).read());
                i += 1;
            }
        }
        self.used = used + count;
    }

    /// Lends the bytes written so far.
    pub(crate) fn bytes(&self) -> &[u8]
        ensures { result.now ≡ self.now.bytes }
    {
        unsafe { std::slice::from_raw_parts(self.at, self.used) }
    }

    /// Gives the memory back to the allocator that made it.
    pub(crate) fn free(self, alloc: &A)
        requires { self.alloc ≡ alloc.now }
    {
        let Chunk {
            at,
            size,
            used: _,
            marker: _,
        } = self;
        unsafe { alloc.deallocate(at, size, 1) }
    }
}
