//! A page volume that fails some of its calls without doing them.
ghost use Rattle.std.specs.Prelude.{◌≡◌, ◌⊎◌, ◌+◌, ◌≤◌, IsTrue, IfOk, IfSome, OnOk};
ghost use Rattle.disk_core.specs.Faults.{CountsFault};
ghost use Rattle.disk_fuse.specs.Fuse.{Spends};
ghost use Rattle.disk_core.specs.Images.{NoMore, Follows, Only, Elapses};
ghost use Rattle.disk_core.specs.Pages.{WrotePage, RemovedPage, HasPage, LacksPage, IsPageRead, IsAfter, IsNextPage};

use crate::Fails;
use crate::fails::spend;
use disk_core::{Failed, PageDisk};

#[derive(Drop)]
pub struct FusedPages<P: PageDisk> {
    pub(crate) inner: P,
    pub(crate) fails: Fails,
    // How many calls it failed without doing them.
    pub(crate) refused: u64,
}

impl<P: PageDisk> PageDisk for FusedPages<P> {
    ghost use Rattle.std.specs.Prelude.{◌+◌};

    ghost tells = { P.tells };

    ghost pages = { λ f. P.pages f.inner };

    ghost images = { λ f. P.images f.inner };

    ghost moment = { λ f. P.moment f.inner };

    ghost left_at = { λ f. P.left_at f.inner };

    ghost faults = { λ f. P.faults f.inner + f.refused };

    ghost reads_image = { λ f told. P.reads_image f.inner told };

    ghost counts_now = { λ f c told now. P.counts_now f.inner c told now };

    ghost only_now = { λ f c told now. P.only_now f.inner c told now };

    fn read_page(&mut self, page: u32, into: &mut [u8; 8192]) -> Result<bool, Failed>
        ensures bytes { IsTrue P.tells → IfOk result (λ found. IsPageRead found (P.pages self.old.inner page) into.new) }
        ensures same { IsTrue P.tells → P.pages self.new.inner ≡ P.pages self.old.inner }
        ensures crash { IsTrue P.tells → NoMore (P.images self.old.inner) (P.images self.new.inner) }
        ensures time { IsTrue P.tells → Elapses (P.moment self.old.inner) (P.moment self.new.inner) (P.left_at self.old.inner) (P.left_at self.new.inner) (P.images self.new.inner) }
        ensures cause { CountsFault result (P.faults self.old.inner + self.old.refused) (P.faults self.new.inner + self.new.refused) }
        ensures fuse { Spends P.faults self.old.fails self.new.fails self.old.refused self.new.refused self.old.inner self.new.inner result }
    {
        spend(&mut self.fails, &mut self.refused)?;
        self.inner.read_page(page, into)
    }

    fn write_page(&mut self, page: u32, from: &[u8; 8192]) -> Result<(), Failed>
        ensures written { IsTrue P.tells → OnOk result (HasPage page from.now (P.pages self.old.inner) (P.pages self.new.inner)) }
        ensures others { IsTrue P.tells → WrotePage page from.now (P.pages self.old.inner) (P.pages self.new.inner) }
        ensures crash { IsTrue P.tells → Follows (WrotePage page from.now) (P.images self.old.inner) (P.images self.new.inner) }
        ensures time { IsTrue P.tells → Elapses (P.moment self.old.inner) (P.moment self.new.inner) (P.left_at self.old.inner) (P.left_at self.new.inner) (P.images self.new.inner) }
        ensures cause { CountsFault result (P.faults self.old.inner + self.old.refused) (P.faults self.new.inner + self.new.refused) }
        ensures fuse { Spends P.faults self.old.fails self.new.fails self.old.refused self.new.refused self.old.inner self.new.inner result }
    {
        spend(&mut self.fails, &mut self.refused)?;
        self.inner.write_page(page, from)
    }

    fn remove(&mut self, page: u32) -> Result<(), Failed>
        ensures removed { IsTrue P.tells → OnOk result (LacksPage page (P.pages self.old.inner) (P.pages self.new.inner)) }
        ensures others { IsTrue P.tells → RemovedPage page (P.pages self.old.inner) (P.pages self.new.inner) }
        ensures crash { IsTrue P.tells → Follows (RemovedPage page) (P.images self.old.inner) (P.images self.new.inner) }
        ensures time { IsTrue P.tells → Elapses (P.moment self.old.inner) (P.moment self.new.inner) (P.left_at self.old.inner) (P.left_at self.new.inner) (P.images self.new.inner) }
        ensures cause { CountsFault result (P.faults self.old.inner + self.old.refused) (P.faults self.new.inner + self.new.refused) }
        ensures fuse { Spends P.faults self.old.fails self.new.fails self.old.refused self.new.refused self.old.inner self.new.inner result }
    {
        spend(&mut self.fails, &mut self.refused)?;
        self.inner.remove(page)
    }

    fn after(&mut self, page: Option<u32>) -> Result<Option<u32>, Failed>
        // Also of a disk that tells nothing, so that a walk over all pages ends.
        ensures above { IfOk result (λ next. IfSome next (IsAfter page)) }
        ensures next { IsTrue P.tells → IfOk result (IsNextPage (P.pages self.old.inner) page) }
        ensures same { IsTrue P.tells → P.pages self.new.inner ≡ P.pages self.old.inner }
        ensures crash { IsTrue P.tells → NoMore (P.images self.old.inner) (P.images self.new.inner) }
        ensures time { IsTrue P.tells → Elapses (P.moment self.old.inner) (P.moment self.new.inner) (P.left_at self.old.inner) (P.left_at self.new.inner) (P.images self.new.inner) }
        ensures cause { CountsFault result (P.faults self.old.inner + self.old.refused) (P.faults self.new.inner + self.new.refused) }
        ensures fuse { Spends P.faults self.old.fails self.new.fails self.old.refused self.new.refused self.old.inner self.new.inner result }
    {
        spend(&mut self.fails, &mut self.refused)?;
        self.inner.after(page)
    }

    fn sync(&mut self) -> Result<(), Failed>
        ensures durable { IsTrue P.tells → OnOk result (Only (P.pages self.old.inner) (P.images self.new.inner)) }
        ensures same { IsTrue P.tells → P.pages self.new.inner ≡ P.pages self.old.inner }
        ensures crash { IsTrue P.tells → NoMore (P.images self.old.inner) (P.images self.new.inner) }
        ensures time { IsTrue P.tells → Elapses (P.moment self.old.inner) (P.moment self.new.inner) (P.left_at self.old.inner) (P.left_at self.new.inner) (P.images self.new.inner) }
        ensures cause { CountsFault result (P.faults self.old.inner + self.old.refused) (P.faults self.new.inner + self.new.refused) }
        ensures fuse { Spends P.faults self.old.fails self.new.fails self.old.refused self.new.refused self.old.inner self.new.inner result }
    {
        spend(&mut self.fails, &mut self.refused)?;
        self.inner.sync()
    }
}
