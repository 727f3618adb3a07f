//! The bytes of a page, on the heap.
ghost use Rattle.std.specs.Prelude.{◌≡◌, IfOk, false};
ghost use Rattle.disk_core.specs.MemLog.{mixed_bytes};

use crate::mem_log::mix;
use std::alloc::{AllocError, Global};
use std::marker::Model;

#[derive(Drop)]
pub struct PageBytes {
    bytes: Box<[u8; 8192]>,
}

impl Model for PageBytes {
    ghost use Rattle.std.specs.Prelude.{List, ℕ};

    ghost Value = { List ℕ };

    ghost view = { λ p. p.bytes.value };
}

impl PageBytes {
    pub fn new(alloc: Global, bytes: &[u8; 8192]) -> Result<PageBytes, AllocError>
        ensures { IfOk result (λ p. p ≡ bytes.now) }
    {
        Ok(PageBytes {
            bytes: Box::new(alloc, *bytes)?,
        })
    }

    // The same in place of what it has.
    pub fn put(&mut self, bytes: &[u8; 8192])
        ensures { self.new ≡ bytes.now }
    {
        *self.bytes = *bytes;
    }

    pub fn bytes(&self) -> &[u8]
        ensures { result.now ≡ self.now }
    {
        &self.bytes[..]
    }

    // Puts bytes back at even places, 0 where there are none.
    pub fn tear(&mut self, synced: &[u8])
        ensures { self.new ≡ mixed_bytes false synced.now self.old }
    {
        mix(&mut self.bytes[..], synced, false);
    }

    pub fn read(&self, into: &mut [u8; 8192])
        ensures { into.new ≡ self.now }
    {
        *into = *self.bytes;
    }
}
