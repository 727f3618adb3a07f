//! A page volume: a map from page numbers to pages of 8192 bytes, as the segment files of an SLRU
//! (`src/backend/access/transam/slru.c`).
ghost use Rattle.std.specs.Prelude.{◌≡◌, ◌≤◌, ℕ, Bool, List, Option, IsTrue, IfOk, IfSome, OnOk};
ghost use Rattle.disk_core.specs.Faults.{CountsFault};
ghost use Rattle.disk_core.specs.Images.{NoMore, Follows, Only, Elapses};
ghost use Rattle.disk_core.specs.Pages.{Pages, WrotePage, RemovedPage, HasPage, LacksPage, IsPageRead, IsAfter, IsNextPage};

use crate::log_disk::Failed;

/// A volume of pages of 8192 bytes.
pub trait PageDisk {
    /// Whether disks of this type tell what they hold. One that doesn't promises counts alone.
    ghost tells: { Bool };

    /// What reads give now.
    ghost pages: { Self → Pages };

    /// What a crash at this moment may leave.
    ghost images: { Self → Pages → Type 0 };

    /// The moment, as a number that doesn't fall.
    ghost moment: { Self → ℕ };

    /// What a crash at each moment up to now may have left, during a call or between two.
    ghost left_at: { Self → ℕ → Pages → Type 0 };

    /// How often the volume has failed.
    ghost faults: { Self → ℕ };

    /// Whether the page is present. An absent one reads as zeros.
    fn read_page(&mut self, page: u32, into: &mut [u8; 8192]) -> Result<bool, Failed>
        ensures bytes { IsTrue tells → IfOk result (λ found. IsPageRead found (pages self.old page) into.new) }
        ensures same { IsTrue tells → pages self.new ≡ pages self.old }
        ensures crash { IsTrue tells → NoMore (images self.old) (images self.new) }
        ensures time { IsTrue tells → Elapses (moment self.old) (moment self.new) (left_at self.old) (left_at self.new) (images self.new) }
        ensures cause { CountsFault result (faults self.old) (faults self.new) };

    /// Until a sync, a crash may leave each byte old or new. A write that failed may have been done in part.
    fn write_page(&mut self, page: u32, from: &[u8; 8192]) -> Result<(), Failed>
        ensures written { IsTrue tells → OnOk result (HasPage page from.now (pages self.old) (pages self.new)) }
        ensures others { IsTrue tells → WrotePage page from.now (pages self.old) (pages self.new) }
        ensures crash { IsTrue tells → Follows (WrotePage page from.now) (images self.old) (images self.new) }
        ensures time { IsTrue tells → Elapses (moment self.old) (moment self.new) (left_at self.old) (left_at self.new) (images self.new) }
        ensures cause { CountsFault result (faults self.old) (faults self.new) };

    /// Until a sync, a crash may bring the page back. A removal that failed may have been done.
    fn remove(&mut self, page: u32) -> Result<(), Failed>
        ensures removed { IsTrue tells → OnOk result (LacksPage page (pages self.old) (pages self.new)) }
        ensures others { IsTrue tells → RemovedPage page (pages self.old) (pages self.new) }
        ensures crash { IsTrue tells → Follows (RemovedPage page) (images self.old) (images self.new) }
        ensures time { IsTrue tells → Elapses (moment self.old) (moment self.new) (left_at self.old) (left_at self.new) (images self.new) }
        ensures cause { CountsFault result (faults self.old) (faults self.new) };

    /// The least present page above the given one.
    fn after(&mut self, page: Option<u32>) -> Result<Option<u32>, Failed>
        // Also of a disk that tells nothing, so that a walk over all pages ends.
        ensures above { IfOk result (λ next. IfSome next (IsAfter page)) }
        ensures next { IsTrue tells → IfOk result (IsNextPage (pages self.old) page) }
        ensures same { IsTrue tells → pages self.new ≡ pages self.old }
        ensures crash { IsTrue tells → NoMore (images self.old) (images self.new) }
        ensures time { IsTrue tells → Elapses (moment self.old) (moment self.new) (left_at self.old) (left_at self.new) (images self.new) }
        ensures cause { CountsFault result (faults self.old) (faults self.new) };

    /// After it, a crash leaves what a read gives. After one that failed nothing more is known than before.
    fn sync(&mut self) -> Result<(), Failed>
        ensures durable { IsTrue tells → OnOk result (Only (pages self.old) (images self.new)) }
        ensures same { IsTrue tells → pages self.new ≡ pages self.old }
        ensures crash { IsTrue tells → NoMore (images self.old) (images self.new) }
        ensures time { IsTrue tells → Elapses (moment self.old) (moment self.new) (left_at self.old) (left_at self.new) (images self.new) }
        ensures cause { CountsFault result (faults self.old) (faults self.new) };

    /// A disk as it reads is one of its images.
    ghost reads_image: { (disk : Self) → IsTrue tells → images disk (pages disk) };

    /// A crash now leaves an image.
    ghost counts_now: { (disk : Self) (c : Pages) → IsTrue tells → images disk c → left_at disk (moment disk) c };

    /// It leaves nothing else.
    ghost only_now: { (disk : Self) (c : Pages) → IsTrue tells → left_at disk (moment disk) c → images disk c };
}
