// A value that several owners share and none changes.
ghost use Rattle.std.specs.Prelude.{◌≡◌, length, IfOk};

use pyn_base::Memory;
use sqlite_items::Items;
use std::alloc::Global;
use std::marker::Model;
use std::rc::Rc;

/// A shared value, which contracts see as the value itself.
#[derive(Drop)]
pub struct Shared<T> {
    inner: Rc<T>,
}

impl<T> Model for Shared<T> {
    ghost Value = { T };

    ghost coded = { T.code };

    ghost view = { λ s. s.inner.value };
}

impl<T> Shared<T> {
    pub fn get(&self) -> &T
        ensures { result.now ≡ self.now }
    {
        self.inner.as_ref()
    }
}

impl<T: Drop> Shared<T> {
    pub fn new(alloc: Global, value: T) -> Result<Self, Memory>
        ensures { IfOk result (λ s. s ≡ value) }
    {
        Ok(Shared {
            inner: Rc::new(alloc, value)?,
        })
    }

    /// The same value for one more owner.
    pub fn share(&self) -> Result<Self, Memory>
        ensures { IfOk result (λ s. s ≡ self.now) }
    {
        Ok(Shared {
            inner: self.inner.clone()?,
        })
    }
}

impl<T> Shared<Items<T>> {
    pub fn as_slice(&self) -> &[T]
        ensures { result.now ≡ self.now }
    {
        self.inner.as_ref().as_slice()
    }

    pub fn len(&self) -> usize
        ensures { result ≡ length self.now }
    {
        self.inner.as_ref().len()
    }
}

impl<T: Drop> Shared<Items<T>> {
    pub fn from_vec(alloc: Global, items: Vec<T>) -> Result<Self, Memory>
        ensures { IfOk result (λ s. s ≡ items.items) }
    {
        Shared::new(alloc, Items::from_vec(items))
    }
}
