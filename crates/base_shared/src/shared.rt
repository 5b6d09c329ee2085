//! A value with several owners.

ghost use Rattle.std.specs.Prelude.{◌≡◌, IfOk};

use base_types::Memory;
use std::alloc::Global;
use std::marker::Model;
use std::sync::Arc;

/// A value that several owners read, in any threads, and nobody changes. Contracts see it as the value.
#[derive(Drop)]
pub struct Shared<T> {
    inner: Arc<T, Global>,
}

impl<T> Model for Shared<T> {
    ghost Value = { T };

    ghost coded = { T.code };

    ghost view = { λ s. s.inner.value };
}

impl<T> Shared<T> {
    pub fn get(&self) -> &T
        ensures { result.now ≡ self.now }
    {
        &self.inner
    }

    /// One more owner of the value, which isn't copied. Takes no memory; where owners can't be counted any
    /// more, there is no more of it.
    pub fn share(&self) -> Result<Shared<T>, Memory>
        ensures { IfOk result (λ s. s ≡ self.now) }
    {
        Ok(Shared {
            inner: Arc::try_clone(&self.inner)?,
        })
    }
}

impl<T: Drop> Shared<T> {
    /// A value with one owner.
    pub fn new(alloc: Global, value: T) -> Result<Shared<T>, Memory>
        ensures { IfOk result (λ s. s ≡ value) }
    {
        Ok(Shared {
            inner: Arc::new(alloc, value)?,
        })
    }
}
