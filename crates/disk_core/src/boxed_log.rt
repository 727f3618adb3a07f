//! A log volume behind a box, which is moved in one word.

use crate::{Extent, Failed, LogDisk};

impl<L: LogDisk> LogDisk for Box<L> {
    ghost tells = { L.tells };

    ghost reads = { λ b. L.reads b.value };

    ghost images = { λ b. L.images b.value };

    ghost moment = { λ b. L.moment b.value };

    ghost left_at = { λ b. L.left_at b.value };

    ghost faults = { λ b. L.faults b.value };

    ghost reads_image = { λ b told. L.reads_image b.value told };

    ghost counts_now = { λ b c told now. L.counts_now b.value c told now };

    ghost only_now = { λ b c told now. L.only_now b.value c told now };

    fn read(&mut self, at: u64, into: &mut [u8]) -> Result<usize, Failed> {
        self.as_mut().read(at, into)
    }

    fn write_at(&mut self, at: u64, from: &[u8]) -> Result<(), Failed> {
        self.as_mut().write_at(at, from)
    }

    fn sync(&mut self) -> Result<(), Failed> {
        self.as_mut().sync()
    }

    fn forget(&mut self, upto: u64) -> Result<(), Failed> {
        self.as_mut().forget(upto)
    }

    fn extent(&mut self) -> Result<Extent, Failed> {
        self.as_mut().extent()
    }
}
