//! A log volume: a row of bytes, of which the front can be forgotten.
ghost use Rattle.std.specs.Prelude.{◌≡◌, ◌⊎◌, ◌≤◌, List, ℕ, Bool, IsTrue, length, max, IfOk, OnOk};
ghost use Rattle.disk_core.specs.Faults.{CountsFault};
ghost use Rattle.disk_core.specs.Images.{NoMore, Follows, Only, Elapses};
ghost use Rattle.disk_core.specs.Volume.{Volume, overlaid, Wrote, Forgot, IsRead};

/// An outside object failed. Its count of faults rose.
#[derive(Clone, Copy, Debug, PartialEq, Eq)]
pub struct Failed;

/// Want of memory.
#[derive(Clone, Copy, Debug, PartialEq, Eq)]
pub struct Memory;

/// From where on a log volume keeps its bytes, and how far they reach.
#[derive(Clone, Copy, Debug, PartialEq, Eq)]
pub struct Extent {
    pub start: u64,
    pub length: u64,
}

/// A volume of bytes, of which the front can be forgotten.
pub trait LogDisk {
    /// Whether disks of this type tell what they hold. One that doesn't promises counts alone.
    ghost tells: { Bool };

    /// What reads give now.
    ghost reads: { Self → Volume };

    /// What a crash at this moment may leave.
    ghost images: { Self → Volume → Type 0 };

    /// The moment, as a number that doesn't fall.
    ghost moment: { Self → ℕ };

    /// What a crash at each moment up to now may have left, during a call or between two.
    ghost left_at: { Self → ℕ → Volume → Type 0 };

    /// How often the volume has failed.
    ghost faults: { Self → ℕ };

    /// Reads at a place, fewer bytes than asked for only at the end.
    fn read(&mut self, at: u64, into: &mut [u8]) -> Result<usize, Failed>
        ensures count { IfOk result (λ n. n ≤ length into.old) }
        ensures bytes { IsTrue tells → IfOk result (λ n. IsRead (reads self.old).bytes at into.old n into.new) }
        ensures same { IsTrue tells → reads self.new ≡ reads self.old }
        ensures crash { IsTrue tells → NoMore (images self.old) (images self.new) }
        ensures time { IsTrue tells → Elapses (moment self.old) (moment self.new) (left_at self.old) (left_at self.new) (images self.new) }
        ensures cause { CountsFault result (faults self.old) (faults self.new) };

    /// Writes at a place. Until a sync, a crash may leave any bytes in the range. A write that failed
    /// may have been done in part.
    fn write_at(&mut self, at: u64, from: &[u8]) -> Result<(), Failed>
        ensures written { IsTrue tells → OnOk result ((reads self.new).bytes ≡ overlaid (reads self.old).bytes at from.now) }
        ensures others { IsTrue tells → Wrote at (length from.now) (reads self.old) (reads self.new) }
        ensures crash { IsTrue tells → Follows (Wrote at (length from.now)) (images self.old) (images self.new) }
        ensures time { IsTrue tells → Elapses (moment self.old) (moment self.new) (left_at self.old) (left_at self.new) (images self.new) }
        ensures cause { CountsFault result (faults self.old) (faults self.new) };

    /// After it, a crash leaves what a read gives. After one that failed nothing more is known than before.
    fn sync(&mut self) -> Result<(), Failed>
        ensures durable { IsTrue tells → OnOk result (Only (reads self.old) (images self.new)) }
        ensures same { IsTrue tells → reads self.new ≡ reads self.old }
        ensures crash { IsTrue tells → NoMore (images self.old) (images self.new) }
        ensures time { IsTrue tells → Elapses (moment self.old) (moment self.new) (left_at self.old) (left_at self.new) (images self.new) }
        ensures cause { CountsFault result (faults self.old) (faults self.new) };

    /// Raises the start. One that failed may have been done.
    fn forget(&mut self, upto: u64) -> Result<(), Failed>
        ensures raised { IsTrue tells → OnOk result ((reads self.new).start ≡ max (reads self.old).start upto) }
        ensures others { IsTrue tells → Forgot upto (reads self.old) (reads self.new) }
        ensures crash { IsTrue tells → Follows (Forgot upto) (images self.old) (images self.new) }
        ensures time { IsTrue tells → Elapses (moment self.old) (moment self.new) (left_at self.old) (left_at self.new) (images self.new) }
        ensures cause { CountsFault result (faults self.old) (faults self.new) };

    fn extent(&mut self) -> Result<Extent, Failed>
        ensures start { IsTrue tells → IfOk result (λ e. e.start ≡ (reads self.old).start) }
        ensures length { IsTrue tells → IfOk result (λ e. e.length ≡ length (reads self.old).bytes) }
        ensures same { IsTrue tells → reads self.new ≡ reads self.old }
        ensures crash { IsTrue tells → NoMore (images self.old) (images self.new) }
        ensures time { IsTrue tells → Elapses (moment self.old) (moment self.new) (left_at self.old) (left_at self.new) (images self.new) }
        ensures cause { CountsFault result (faults self.old) (faults self.new) };

    /// A disk as it reads is one of its images.
    ghost reads_image: { (disk : Self) → IsTrue tells → images disk (reads disk) };

    /// A crash now leaves an image.
    ghost counts_now: { (disk : Self) (c : Volume) → IsTrue tells → images disk c → left_at disk (moment disk) c };

    /// It leaves nothing else.
    ghost only_now: { (disk : Self) (c : Volume) → IsTrue tells → left_at disk (moment disk) c → images disk c };
}
