//! A page volume behind a box, which is moved in one word.
ghost use Rattle.std.specs.Prelude.{◌≡◌, IsTrue, IfOk, IfSome, OnOk};
ghost use Rattle.disk_core.specs.Faults.{CountsFault};
ghost use Rattle.disk_core.specs.Images.{NoMore, Follows, Only, Elapses};
ghost use Rattle.disk_core.specs.Pages.{WrotePage, RemovedPage, HasPage, LacksPage, IsPageRead, IsAfter, IsNextPage};

use crate::{Failed, PageDisk};

impl<P: PageDisk> PageDisk for Box<P> {
    ghost tells = { P.tells };

    ghost pages = { λ b. P.pages b.value };

    ghost images = { λ b. P.images b.value };

    ghost moment = { λ b. P.moment b.value };

    ghost left_at = { λ b. P.left_at b.value };

    ghost faults = { λ b. P.faults b.value };

    ghost reads_image = { λ b told. P.reads_image b.value told };

    ghost counts_now = { λ b c told now. P.counts_now b.value c told now };

    ghost only_now = { λ b c told now. P.only_now b.value c told now };

    fn read_page(&mut self, page: u32, into: &mut [u8; 8192]) -> Result<bool, Failed> {
        self.as_mut().read_page(page, into)
    }

    fn write_page(&mut self, page: u32, from: &[u8; 8192]) -> Result<(), Failed> {
        self.as_mut().write_page(page, from)
    }

    fn remove(&mut self, page: u32) -> Result<(), Failed> {
        self.as_mut().remove(page)
    }

    fn after(&mut self, page: Option<u32>) -> Result<Option<u32>, Failed> {
        self.as_mut().after(page)
    }

    fn sync(&mut self) -> Result<(), Failed> {
        self.as_mut().sync()
    }
}
