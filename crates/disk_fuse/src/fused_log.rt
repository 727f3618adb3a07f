//! A log volume that fails some of its calls without doing them.
ghost use Rattle.std.specs.Prelude.{◌≡◌, ◌⊎◌, ◌+◌, ◌≤◌, IsTrue, length, max, IfOk, OnOk, OnErr, IsErr, Some};
ghost use Rattle.disk_core.specs.Faults.{CountsFault};
ghost use Rattle.disk_fuse.specs.Fuse.{Spends};
ghost use Rattle.disk_core.specs.Images.{NoMore, Follows, Only, Elapses};
ghost use Rattle.disk_core.specs.Volume.{overlaid, Wrote, Forgot, IsRead};

use crate::Fails;
use crate::fails::spend;
use disk_core::{Extent, Failed, LogDisk};

#[derive(Drop)]
pub struct FusedLog<D: LogDisk> {
    pub(crate) inner: D,
    pub(crate) fails: Fails,
    // How many calls it failed without doing them.
    pub(crate) refused: u64,
}

impl<D: LogDisk> LogDisk for FusedLog<D> {
    ghost use Rattle.std.specs.Prelude.{◌+◌};

    ghost tells = { D.tells };

    ghost reads = { λ f. D.reads f.inner };

    ghost images = { λ f. D.images f.inner };

    ghost moment = { λ f. D.moment f.inner };

    ghost left_at = { λ f. D.left_at f.inner };

    ghost faults = { λ f. D.faults f.inner + f.refused };

    ghost reads_image = { λ f told. D.reads_image f.inner told };

    ghost counts_now = { λ f c told now. D.counts_now f.inner c told now };

    ghost only_now = { λ f c told now. D.only_now f.inner c told now };

    fn read(&mut self, at: u64, into: &mut [u8]) -> Result<usize, Failed>
        ensures count { IfOk result (λ n. n ≤ length into.old) }
        ensures bytes { IsTrue D.tells → IfOk result (λ n. IsRead (D.reads self.old.inner).bytes at into.old n into.new) }
        ensures same { IsTrue D.tells → D.reads self.new.inner ≡ D.reads self.old.inner }
        ensures crash { IsTrue D.tells → NoMore (D.images self.old.inner) (D.images self.new.inner) }
        ensures time { IsTrue D.tells → Elapses (D.moment self.old.inner) (D.moment self.new.inner) (D.left_at self.old.inner) (D.left_at self.new.inner) (D.images self.new.inner) }
        ensures cause { CountsFault result (D.faults self.old.inner + self.old.refused) (D.faults self.new.inner + self.new.refused) }
        ensures fuse { Spends D.faults self.old.fails self.new.fails self.old.refused self.new.refused self.old.inner self.new.inner result }
    {
        spend(&mut self.fails, &mut self.refused)?;
        self.inner.read(at, into)
    }

    fn write_at(&mut self, at: u64, from: &[u8]) -> Result<(), Failed>
        ensures written { IsTrue D.tells → OnOk result ((D.reads self.new.inner).bytes ≡ overlaid (D.reads self.old.inner).bytes at from.now) }
        ensures others { IsTrue D.tells → Wrote at (length from.now) (D.reads self.old.inner) (D.reads self.new.inner) }
        ensures crash { IsTrue D.tells → Follows (Wrote at (length from.now)) (D.images self.old.inner) (D.images self.new.inner) }
        ensures time { IsTrue D.tells → Elapses (D.moment self.old.inner) (D.moment self.new.inner) (D.left_at self.old.inner) (D.left_at self.new.inner) (D.images self.new.inner) }
        ensures cause { CountsFault result (D.faults self.old.inner + self.old.refused) (D.faults self.new.inner + self.new.refused) }
        ensures fuse { Spends D.faults self.old.fails self.new.fails self.old.refused self.new.refused self.old.inner self.new.inner result }
    {
        spend(&mut self.fails, &mut self.refused)?;
        self.inner.write_at(at, from)
    }

    fn sync(&mut self) -> Result<(), Failed>
        ensures durable { IsTrue D.tells → OnOk result (Only (D.reads self.old.inner) (D.images self.new.inner)) }
        ensures same { IsTrue D.tells → D.reads self.new.inner ≡ D.reads self.old.inner }
        ensures crash { IsTrue D.tells → NoMore (D.images self.old.inner) (D.images self.new.inner) }
        ensures time { IsTrue D.tells → Elapses (D.moment self.old.inner) (D.moment self.new.inner) (D.left_at self.old.inner) (D.left_at self.new.inner) (D.images self.new.inner) }
        ensures cause { CountsFault result (D.faults self.old.inner + self.old.refused) (D.faults self.new.inner + self.new.refused) }
        ensures fuse { Spends D.faults self.old.fails self.new.fails self.old.refused self.new.refused self.old.inner self.new.inner result }
    {
        spend(&mut self.fails, &mut self.refused)?;
        self.inner.sync()
    }

    fn forget(&mut self, upto: u64) -> Result<(), Failed>
        ensures raised { IsTrue D.tells → OnOk result ((D.reads self.new.inner).start ≡ max (D.reads self.old.inner).start upto) }
        ensures others { IsTrue D.tells → Forgot upto (D.reads self.old.inner) (D.reads self.new.inner) }
        ensures crash { IsTrue D.tells → Follows (Forgot upto) (D.images self.old.inner) (D.images self.new.inner) }
        ensures time { IsTrue D.tells → Elapses (D.moment self.old.inner) (D.moment self.new.inner) (D.left_at self.old.inner) (D.left_at self.new.inner) (D.images self.new.inner) }
        ensures cause { CountsFault result (D.faults self.old.inner + self.old.refused) (D.faults self.new.inner + self.new.refused) }
        ensures fuse { Spends D.faults self.old.fails self.new.fails self.old.refused self.new.refused self.old.inner self.new.inner result }
    {
        spend(&mut self.fails, &mut self.refused)?;
        self.inner.forget(upto)
    }

    fn extent(&mut self) -> Result<Extent, Failed>
        ensures start { IsTrue D.tells → IfOk result (λ e. e.start ≡ (D.reads self.old.inner).start) }
        ensures length { IsTrue D.tells → IfOk result (λ e. e.length ≡ length (D.reads self.old.inner).bytes) }
        ensures same { IsTrue D.tells → D.reads self.new.inner ≡ D.reads self.old.inner }
        ensures crash { IsTrue D.tells → NoMore (D.images self.old.inner) (D.images self.new.inner) }
        ensures time { IsTrue D.tells → Elapses (D.moment self.old.inner) (D.moment self.new.inner) (D.left_at self.old.inner) (D.left_at self.new.inner) (D.images self.new.inner) }
        ensures cause { CountsFault result (D.faults self.old.inner + self.old.refused) (D.faults self.new.inner + self.new.refused) }
        ensures fuse { Spends D.faults self.old.fails self.new.fails self.old.refused self.new.refused self.old.inner self.new.inner result }
    {
        spend(&mut self.fails, &mut self.refused)?;
        self.inner.extent()
    }
}
