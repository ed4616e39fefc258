ghost use Rattle.std.specs.Prelude.{◌≡◌};
ghost use Rattle.std.specs.Borrow.{ftrue};

use std::marker::{Model, PhantomData};

/// The value at the time when [`Shadow::of`] was called, only for proofs: it takes no memory.
pub struct Shadow<T> {
    of: PhantomData<T>,
    pub ghost value: { T },
}

impl<T> Model for Shadow<T> {
    ghost also_owns = { λ _. ftrue };
}

// It has no bytes.
unsafe impl<T: Send> Send for Shadow<T> {}

unsafe impl<T: Sync> Sync for Shadow<T> {}

impl<T> Drop for Shadow<T> {
    fn drop(self) {
        let Shadow { of: _ } = self;
    }
}

impl<T> Shadow<T> {
    /// Returns the shadow of the present value.
    pub fn of(value: &T) -> Shadow<T>
        ensures { result.value ≡ value.now }
    {
        Shadow { of: PhantomData }
    }
}
