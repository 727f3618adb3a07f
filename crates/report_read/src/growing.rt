//! Lists that grow while they are read.
ghost use Rattle.std.specs.Prelude.{◌≡◌, [], ◌∷◌, ◌++◌, OnOk};

use std::alloc::Global;
use std::marker::Model;
use std::mem;
use tx_model::{Memory, Sequence};

/// Items that are added one by one. Once all are there they keep no spare room: a report may have millions of short
/// lists. A contract sees the list of them.
#[derive(Drop)]
pub struct Growing<T> {
    items: Vec<T>,
}

impl<T> Model for Growing<T> {
    ghost use Rattle.std.specs.Prelude.{List};

    ghost Value = { List T };

    ghost view = { λ g. g.items.items };
}

impl<T> Growing<T> {
    /// No items. Takes no memory.
    pub fn new(alloc: Global) -> Self
        ensures { result ≡ [] }
    {
        Growing {
            items: Vec::new(alloc),
        }
    }

    /// The items so far.
    pub fn items(&self) -> &[T]
        ensures { result.now ≡ self.now }
    {
        self.items.as_slice()
    }
}

impl<T: Drop> Growing<T> {
    pub fn push(&mut self, item: T) -> Result<(), Memory>
        ensures ok { OnOk result (self.new ≡ self.old ++ item ∷ []) }
    {
        self.items.push(item)?;
        Ok(())
    }

    /// Hands all items on, and begins anew.
    pub fn finish(&mut self, alloc: Global) -> Sequence<T>
        ensures items { result ≡ self.old }
        ensures anew { self.new ≡ [] }
    {
        let mut items = mem::replace(&mut self.items, Vec::new(alloc));
        items.shrink_to_fit();
        Sequence::of(items)
    }
}
