// One page in memory.
ghost use Rattle.std.specs.Prelude.{◌≡◌, ◌⊎◌, ℕ, ◌<◌, ◌≤◌, ◌^◌, Bool, true, false, OnOk, OnErr, IsTrue, Some, None};
ghost use Rattle.disk_core.specs.Faults.{CountsFault};
ghost use Rattle.disk_core.specs.Images.{Follows, NoMore, Elapses};
ghost use Rattle.disk_core.specs.Pages.{Pages, WrotePage, page_bytes, zero_page};
ghost use Rattle.slru_bank.specs.Removal.{cleared_from};

use crate::removal::Removal;
use disk_core::{Failed, PageDisk};
use store_pages::PageRule;

#[derive(Drop)]
pub(crate) struct Buffer {
    pub(crate) page: Option<u32>,
    /// The disk may have other bytes.
    pub(crate) changed: bool,
    pub(crate) bytes: Box<[u8; 8192]>,
}

impl Buffer {
    ghost use Rattle.slru_bank.specs.Bank.{holds, Agrees, WroteHeld};
    ghost use Rattle.slru_bank.specs.Removal.{removes, cleared_from, Blank, Keeps};

    // Writes the page if it was changed.
    pub(crate) fn clean<P: PageDisk>(&mut self, disk: &mut P) -> Result<(), Failed>
        ensures page { self.new.page ≡ self.old.page }
        ensures bytes { self.new.bytes.value ≡ self.old.bytes.value }
        ensures clean { OnOk result (self.new.changed ≡ false) }
        ensures others { IsTrue P.tells → (q : ℕ) → holds self.old.page q ≡ false → P.pages disk.new q ≡ P.pages disk.old q }
        ensures agrees { IsTrue P.tells → Agrees (P.pages disk.old) self.old → Agrees (P.pages disk.new) self.new }
        ensures crash { IsTrue P.tells → Follows (WroteHeld self.old.page self.old.bytes.value) (P.images disk.old) (P.images disk.new) }
        ensures time { IsTrue P.tells → Elapses (P.moment disk.old) (P.moment disk.new) (P.left_at disk.old) (P.left_at disk.new) (P.images disk.new) }
        ensures cause { CountsFault result (P.faults disk.old) (P.faults disk.new) }
    {
        if self.changed
            && let Some(page) = self.page
        {
            disk.write_page(page, &self.bytes)?;
        }
        self.changed = false;
        Ok(())
    }

    // Reads a page in place of another. After a failure there is no page.
    pub(crate) fn fill<P: PageDisk>(&mut self, disk: &mut P, page: u32) -> Result<(), Failed>
        ensures ok { OnOk result (self.new.page ≡ Some page) }
        ensures err { OnErr result (self.new.page ≡ None) }
        ensures clean { self.new.changed ≡ false }
        ensures bytes { IsTrue P.tells → OnOk result (self.new.bytes.value ≡ page_bytes (P.pages disk.old page)) }
        ensures same { IsTrue P.tells → P.pages disk.new ≡ P.pages disk.old }
        ensures crash { IsTrue P.tells → NoMore (P.images disk.old) (P.images disk.new) }
        ensures time { IsTrue P.tells → Elapses (P.moment disk.old) (P.moment disk.new) (P.left_at disk.old) (P.left_at disk.new) (P.images disk.new) }
        ensures cause { CountsFault result (P.faults disk.old) (P.faults disk.new) }
    {
        self.page = None;
        self.changed = false;
        disk.read_page(page, &mut self.bytes)?;
        self.page = Some(page);
        Ok(())
    }

    // Fills it with zeros, which the disk may not have.
    pub(crate) fn blank(&mut self)
        ensures page { self.new.page ≡ self.old.page }
        ensures changed { self.new.changed ≡ true }
        ensures bytes { self.new.bytes.value ≡ zero_page }
    {
        self.changed = true;
        clear(&mut self.bytes);
    }

    // Fills it with zeros from a byte on. It comes to count as changed only if it had others there.
    pub(crate) fn clear_from(&mut self, at: usize)
        requires { at ≤ 8192 }
        ensures page { self.new.page ≡ self.old.page }
        ensures bytes { self.new.bytes.value ≡ cleared_from at self.old.bytes.value }
        ensures agrees { (pages : Pages) → Agrees pages self.old → Agrees pages self.new }
    {
        if self.changed || !are_zeros(&self.bytes, at) {
            zero_from(&mut self.bytes, at);
            self.changed = true;
        }
    }

    // Fills it with zeros, if its page is to be removed.
    pub(crate) fn blank_if<O: PageRule>(&mut self, removal: Removal)
        ensures page { self.new.page ≡ self.old.page }
        ensures blank { Blank (removes O.shape O.per_page removal) self.new }
        ensures agrees { (pages : Pages) → Agrees pages self.old → Agrees pages self.new }
        ensures zero_or_same { (self.new.bytes.value ≡ zero_page) ⊎ (self.new.bytes.value ≡ self.old.bytes.value) }
        ensures same { Keeps (removes O.shape O.per_page removal) self.old → self.new.bytes.value ≡ self.old.bytes.value }
    {
        if let Some(page) = self.page
            && removal.takes::<O>(page)
        {
            self.blank();
        }
    }

    // Gives it up, if its page was removed.
    pub(crate) fn empty_if<O: PageRule>(&mut self, removal: Removal)
        ensures bytes { self.new.bytes.value ≡ self.old.bytes.value }
        ensures keeps { Keeps (removes O.shape O.per_page removal) self.new }
        ensures page { (self.new.page ≡ self.old.page) ⊎ (self.new.page ≡ None) }
        ensures same { Keeps (removes O.shape O.per_page removal) self.old → self.new.page ≡ self.old.page }
        ensures changed { self.new.changed ≡ self.old.changed }
        ensures gone { self.new.page ≡ None → (p : ℕ) → self.old.page ≡ Some p → (p < 2 ^ 32) × (removes O.shape O.per_page removal p ≡ true) }
    {
        if let Some(page) = self.page
            && removal.takes::<O>(page)
        {
            self.page = None;
        }
    }
}

#[tactic(auto, unfolding(disk_core::specs::Pages::zero_page))]
fn clear(into: &mut [u8; 8192])
    ensures { into.new ≡ zero_page }
{
    *into = [0; 8192];
}

// The bytes from a place on are all 0. It looks at each, so that several are compared at once.
fn are_zeros(bytes: &[u8; 8192], at: usize) -> bool
    requires { at ≤ 8192 }
    ensures { IsTrue result → bytes.now ≡ cleared_from at bytes.now }
{
    let mut zeros = true;
    let mut i = at;
    while i < 8192 {
        zeros &= bytes[i] == 0;
        i += 1;
    }
    zeros
}

fn zero_from(bytes: &mut [u8; 8192], at: usize)
    requires { at ≤ 8192 }
    ensures { bytes.new ≡ cleared_from at bytes.old }
{
    bytes[at..].fill(0);
}
