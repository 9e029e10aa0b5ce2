//! Values of any type on the heap.

ghost use Rattle.std.specs.Prelude.{◌≡◌, IfOk};

use std::alloc::{AllocError, Global};
use std::marker::Model;

/// A value on the heap, so that what holds it stays small. Contracts see the value itself.
#[derive(Debug)]
pub struct Boxed<T> {
    inner: Box<T>,
}

impl<T: Drop> Drop for Boxed<T> {
    // Not inlined, so that a scalar takes no room for such a value on the stack.
    #[inline(never)]
    fn drop(self) {
        let Boxed { inner } = self;
        drop(inner);
    }
}

impl<T> Model for Boxed<T> {
    ghost Value = { T };

    ghost view = { λ a. a.inner.value };
}

impl<T> Boxed<T> {
    /// Moves this value to the heap.
    #[inline]
    pub fn new(alloc: Global, value: T) -> Result<Boxed<T>, AllocError>
    where
        T: Drop,
        ensures { IfOk result (λ b. b ≡ value) }
    {
        Ok(Boxed {
            inner: Box::new(alloc, value)?,
        })
    }

    /// The value.
    #[inline]
    pub fn get(&self) -> &T
        ensures { result.now ≡ self.now }
    {
        &self.inner
    }

    /// Returns the value, consuming its holder.
    #[inline]
    pub fn into_inner(self) -> T
        ensures { result ≡ self }
    {
        let Boxed { inner } = self;
        Box::into_inner(inner)
    }
}
