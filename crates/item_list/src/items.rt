//! The list, and copies of what it holds.

ghost use Rattle.std.specs.Prelude.{◌≡◌, ◌∷◌, ◌++◌, [], length, IfOk, OnOk, OnErr};

use std::alloc::{AllocError, Global};
use std::marker::Model;

/// What may be made a second time, where there's memory.
pub trait TryClone: Drop {
    /// An equal value. The one error is want of memory.
    fn try_clone(&self) -> Result<Self, AllocError>
        ensures { IfOk result (λ clone. clone ≡ self.now) };
}

impl<T: Copy + Drop> TryClone for T {
    fn try_clone(&self) -> Result<T, AllocError> {
        Ok(*self)
    }
}

/// Items in their order.
#[derive(Debug, Drop)]
pub struct Items<T: Drop> {
    list: Vec<T>,
}

impl<T: Drop> Model for Items<T> {
    ghost use Rattle.std.specs.Prelude.{List};

    ghost Value = { List T };

    ghost view = { λ a. a.list.items };
}

impl<T: Drop> Items<T> {
    /// No item.
    pub fn new(alloc: Global) -> Items<T>
        ensures { result ≡ [] }
    {
        Items {
            list: Vec::new(alloc),
        }
    }

    /// Takes a vector over. A caller that must not fail half-way makes one with room for all first, and fills it by `push_reserved`.
    pub fn from_vec(list: Vec<T>) -> Items<T>
        ensures { result ≡ list.items }
    {
        Items { list }
    }

    /// Gives the vector back.
    pub fn into_vec(self) -> Vec<T>
        ensures { result.items ≡ self }
    {
        self.list
    }

    pub fn as_slice(&self) -> &[T]
        ensures { result.now ≡ self.now }
    {
        self.list.as_slice()
    }

    pub fn len(&self) -> usize
        ensures { result ≡ length self.now }
    {
        self.list.len()
    }

    /// Adds an item at the end. Refused for want of memory, it leaves the list as it was.
    pub fn push(&mut self, item: T) -> Result<(), AllocError>
        ensures ok { OnOk result (self.new ≡ self.old ++ item ∷ []) }
        ensures err { OnErr result (self.new ≡ self.old) }
    {
        self.list.push(item)?;
        Ok(())
    }
}

impl<T: TryClone> Items<T> {
    /// An equal list. The one error is want of memory.
    pub fn copy(&self, alloc: Global) -> Result<Items<T>, AllocError>
        ensures { IfOk result (λ copy. copy ≡ self.now) }
    {
        let mut list = Vec::with_capacity(alloc, self.list.len())?;
        for item in self.list.as_slice() {
            list.push(item.try_clone()?)?;
        }
        Ok(Items { list })
    }
}
