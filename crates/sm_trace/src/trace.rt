ghost use Rattle.std.specs.Prelude.{◌≡◌, List, [], ◌∷◌, ◌++◌};
ghost use Rattle.std.specs.Borrow.{ftrue};

use std::marker::{Model, PhantomData};

/// A list that grows at its end, only for proofs: it takes no memory.
///
/// Contracts see its items, in the order in which they came.
pub struct Trace<T> {
    of: PhantomData<T>,
    pub ghost items: { List T },
}

impl<T> Model for Trace<T> {
    ghost also_owns = { λ _. ftrue };
}

// It has no bytes.
unsafe impl<T: Send> Send for Trace<T> {}

unsafe impl<T: Sync> Sync for Trace<T> {}

impl<T> Drop for Trace<T> {
    fn drop(self) {
        let Trace { of: _ } = self;
    }
}

impl<T> Trace<T> {
    /// Returns the empty list.
    pub fn empty() -> Trace<T>
        ensures { result.items ≡ [] }
    {
        Trace { of: PhantomData }
    }

    /// These items, and then the item.
    pub fn and(&self, item: &T) -> Trace<T>
        ensures { result.items ≡ self.now.items ++ item.now ∷ [] }
    {
        Trace { of: PhantomData }
    }

    /// Puts the item at the end.
    pub fn push(&mut self, item: &T)
        ensures { self.new.items ≡ self.old.items ++ item.now ∷ [] }
    {
        *self = self.and(item);
    }
}
