//! Lists that copies share.
ghost use Rattle.std.specs.Prelude.{◌≡◌, IfOk};

use crate::sequence::{Copied, Memory, Sequence};
use std::alloc::{AllocError, Global};
use std::marker::Model;
use std::sync::Arc;

/// Items that copies share: a copy takes no memory. A contract sees the list of them.
#[derive(Drop)]
pub struct Shared<T> {
    items: Arc<Sequence<T>>,
}

impl<T> Model for Shared<T> {
    ghost use Rattle.std.specs.Prelude.{List};

    ghost Value = { List T };

    ghost view = { λ s. s.items.value };
}

impl<T> Shared<T> {
    /// The items, in order.
    pub fn items(&self) -> &[T]
        ensures { result.now ≡ self.now }
    {
        self.items.items()
    }
}

impl<T: Drop> Shared<T> {
    /// These items, in a block that copies share.
    pub fn of(alloc: Global, items: Sequence<T>) -> Result<Shared<T>, Memory>
        ensures { IfOk result (λ s. s ≡ items) }
    {
        Ok(Shared {
            items: Arc::new(alloc, items)?,
        })
    }
}

impl<T: Drop> Copied for Shared<T> {
    fn copy(&self) -> Result<Self, Memory> {
        Ok(self.clone()?)
    }
}

impl<T: Drop> Clone for Shared<T> {
    ghost is_clone = { λ x y. y ≡ x };

    fn clone(&self) -> Result<Self, AllocError> {
        Ok(Shared {
            items: Arc::try_clone(&self.items)?,
        })
    }
}
