//! Counters that copies share.
ghost use Rattle.std.specs.Prelude.{◌≡◌, IfOk};

use crate::record::Counters;
use crate::sequence::{Copied, Memory};
use std::alloc::{AllocError, Global};
use std::marker::Model;
use std::sync::Arc;

/// Counters in a block that copies share, as a record keeps them: in place they would make each record greater by half. A
/// contract sees the `Counters`.
#[derive(Drop)]
pub struct SharedCounters {
    block: Arc<Counters>,
}

impl Model for SharedCounters {
    ghost use Rattle.tx_events.specs.declared.record.Counters.{Counters};

    ghost Value = { Counters };

    ghost view = { λ s. s.block.value };
}

impl SharedCounters {
    pub fn of(alloc: Global, counters: Counters) -> Result<SharedCounters, Memory>
        ensures { IfOk result (λ s. s ≡ counters) }
    {
        Ok(SharedCounters {
            block: Arc::new(alloc, counters)?,
        })
    }

    pub fn get(&self) -> &Counters
        ensures { result.now ≡ self.now }
    {
        &self.block
    }
}

impl Copied for SharedCounters {
    fn copy(&self) -> Result<Self, Memory> {
        Ok(self.clone()?)
    }
}

impl Clone for SharedCounters {
    ghost is_clone = { λ x y. y ≡ x };

    fn clone(&self) -> Result<Self, AllocError> {
        Ok(SharedCounters {
            block: Arc::try_clone(&self.block)?,
        })
    }
}
