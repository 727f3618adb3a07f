//! Sequences that grow by `Result`, and copies that may want memory.
ghost use Rattle.std.specs.Prelude.{◌≡◌, ℕ, List, [], ◌∷◌, ◌++◌, IfOk, OnOk, OnErr, length};

use crate::{FullMulti, FullXid};
use std::alloc::{AllocError, AllocFailed, Global};
use std::marker::Model;

/// Want of memory.
#[derive(Clone, Copy, Debug, PartialEq, Eq)]
pub struct Memory;

impl From<AllocError> for Memory {
    fn from(_e: AllocError) -> Memory {
        Memory
    }
}

impl<T: Drop> From<AllocFailed<T>> for Memory {
    fn from(_e: AllocFailed<T>) -> Memory {
        Memory
    }
}

/// A value that can be copied, where there is memory.
pub trait Copied: Drop {
    fn copy(&self) -> Result<Self, Memory>
        ensures { IfOk result (λ copy. copy ≡ self.now) };
}

/// A sequence of items. A contract sees the list of them.
#[derive(Drop)]
pub struct Sequence<T> {
    items: Vec<T>,
}

impl<T> Model for Sequence<T> {
    ghost use Rattle.std.specs.Prelude.{List};

    ghost Value = { List T };

    ghost view = { λ s. s.items.items };
}

impl<T> Sequence<T> {
    /// No items. Takes no memory.
    pub fn new(alloc: Global) -> Self
        ensures { result ≡ [] }
    {
        Sequence {
            items: Vec::new(alloc),
        }
    }

    /// No items yet, with room for so many.
    pub fn with_room(alloc: Global, count: usize) -> Result<Self, Memory>
        ensures { IfOk result (λ s. s ≡ []) }
    {
        Ok(Sequence {
            items: Vec::with_capacity(alloc, count)?,
        })
    }

    /// The items of a `Vec`. Takes no memory.
    pub fn of(items: Vec<T>) -> Self
        ensures { result ≡ items.items }
    {
        Sequence { items }
    }

    /// The items, in order.
    pub fn items(&self) -> &[T]
        ensures { result.now ≡ self.now }
    {
        self.items.as_slice()
    }

    /// The `Vec` of its items. Takes no memory.
    pub fn into_vec(self) -> Vec<T>
        ensures { result.items ≡ self }
    {
        self.items
    }
}

impl<T: Drop> Sequence<T> {
    /// Adds an item at the end. After want of memory nothing changed.
    pub fn push(&mut self, item: T) -> Result<(), Memory>
        ensures ok { OnOk result (self.new ≡ self.old ++ item ∷ []) }
        ensures err { OnErr result (self.new ≡ self.old) }
    {
        self.items.push(item)?;
        Ok(())
    }
}

impl<T: Copied> Copied for Sequence<T> {
    fn copy(&self) -> Result<Self, Memory> {
        let mut all = Sequence::with_room(*self.items.allocator(), self.items.len())?;
        for item in self.items() {
            all.push(item.copy()?)?;
        }
        Ok(all)
    }
}

impl<T: Copied> Clone for Sequence<T> {
    ghost is_clone = { λ x y. y ≡ x };

    fn clone(&self) -> Result<Self, AllocError> {
        match self.copy() {
            Ok(copy) => Ok(copy),
            Err(Memory) => Err(AllocError),
        }
    }
}

impl Copied for u8 {
    fn copy(&self) -> Result<Self, Memory> {
        Ok(*self)
    }
}

impl Copied for FullXid {
    fn copy(&self) -> Result<Self, Memory> {
        Ok(*self)
    }
}

/// Ids, mostly ascending.
pub type IdList = Sequence<FullXid>;
