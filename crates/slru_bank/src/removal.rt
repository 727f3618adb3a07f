// Which pages a call removes.
ghost use Rattle.std.specs.Prelude.{◌≡◌, ◌≤◌, ◌<◌, ◌+◌, ◌^◌, ℕ, Bool, List, true, length, get_or, IsTrue, IfOk, IfSome, OnOk, None, false};
ghost use Rattle.disk_core.specs.Faults.{CountsFault};
ghost use Rattle.disk_core.specs.Pages.{Pages, zero_page};
ghost use Rattle.tx_events.specs.PageOrder.{is_cut, page_precedes};
ghost use Rattle.slru_bank.specs.Bank.{map_of, Distinct, AllAgree};
ghost use Rattle.slru_bank.specs.Crash.{SameMap, CrashLeaves};
ghost use Rattle.slru_bank.specs.Removal.{later_cutoff, removes, MayDrop, MayLack, AllAbsent, AllBlank, BlankUpTo, KeepUpTo};

use crate::buffer::Buffer;
use disk_core::{Failed, PageDisk};
use store_pages::{PAGES_PER_SEGMENT, PageRule};

#[derive(Clone, Copy, Debug, PartialEq, Eq)]
pub(crate) enum Removal {
    /// Those whose segment lies wholly before the cutoff.
    Before { cutoff: u32 },
    /// Those that come after the page.
    After { page: u32 },
    All,
}

// The page's segment of 32 pages lies wholly before the cutoff.
pub(crate) fn lies_before<O: PageRule>(cutoff: u32, page: u32) -> bool
    ensures { result ≡ is_cut O.shape O.per_page cutoff page }
{
    let first = page / PAGES_PER_SEGMENT * PAGES_PER_SEGMENT;
    O::precedes(first, cutoff) && O::precedes(first + (PAGES_PER_SEGMENT - 1), cutoff)
}

// The later of two cutoffs. Where neither precedes the other, the kept one.
pub(crate) fn later_of<O: PageRule>(kept: u32, cutoff: u32) -> u32
    ensures { result ≡ later_cutoff O.shape O.per_page kept cutoff }
{
    if O::precedes(kept, cutoff) {
        cutoff
    } else {
        kept
    }
}

impl Removal {
    pub(crate) fn takes<O: PageRule>(self, page: u32) -> bool
        ensures is { result ≡ removes O.shape O.per_page self page }
        ensures fits { page < 2 ^ 32 }
    {
        match self {
            Removal::Before { cutoff } => lies_before::<O>(cutoff, page),
            Removal::After { page: kept } => O::precedes(kept, page),
            Removal::All => true,
        }
    }
}

// Fills one buffer with zeros, if its page is to be removed.
fn blank_one<O: PageRule>(buffers: &mut [Buffer], at: usize, removal: Removal)
    requires within { at < length buffers.old }
    requires distinct { Distinct buffers.old }
    ensures long { length buffers.new ≡ length buffers.old }
    ensures blank { BlankUpTo (removes O.shape O.per_page removal) at buffers.old → BlankUpTo (removes O.shape O.per_page removal) (at + 1) buffers.new }
    ensures distinct { Distinct buffers.new }
    ensures agree { (pages : Pages) → AllAgree pages buffers.old → AllAgree pages buffers.new }
    ensures map { (pages : Pages) → MayDrop (removes O.shape O.per_page removal) (map_of pages buffers.old) (map_of pages buffers.new) }
{
    buffers[at].blank_if::<O>(removal);
}

// Fills each buffer of a page to remove with zeros. They count as changed, so that no byte of before comes back from
// the volume after a removal that failed.
fn blank_all<O: PageRule>(buffers: &mut [Buffer], removal: Removal)
    requires distinct { Distinct buffers.old }
    ensures long { length buffers.new ≡ length buffers.old }
    ensures blank { AllBlank (removes O.shape O.per_page removal) buffers.new }
    ensures distinct { Distinct buffers.new }
    ensures agree { (pages : Pages) → AllAgree pages buffers.old → AllAgree pages buffers.new }
    ensures map { (pages : Pages) → MayDrop (removes O.shape O.per_page removal) (map_of pages buffers.old) (map_of pages buffers.new) }
{
    let mut i = 0;
    while i < buffers.len() {
        blank_one::<O>(buffers, i, removal);
        i += 1;
    }
}

pub(crate) fn blank_removed<O: PageRule>(buffers: &mut Vec<Buffer>, removal: Removal)
    requires distinct { Distinct buffers.old.items }
    ensures long { length buffers.new.items ≡ length buffers.old.items }
    ensures blank { AllBlank (removes O.shape O.per_page removal) buffers.new.items }
    ensures distinct { Distinct buffers.new.items }
    ensures agree { (pages : Pages) → AllAgree pages buffers.old.items → AllAgree pages buffers.new.items }
    ensures map { (pages : Pages) → MayDrop (removes O.shape O.per_page removal) (map_of pages buffers.old.items) (map_of pages buffers.new.items) }
{
    blank_all::<O>(buffers, removal);
}

// Removes the volume's pages, from the lowest on. Where it is told how many numbers a page holds, it costs those that go.
pub(crate) fn remove_pages<P: PageDisk, O: PageRule>(
    disk: &mut P,
    removal: Removal,
    per_page: Option<u32>,
) -> Result<(), Failed>
    requires span { IfSome per_page (λ n. n ≡ O.per_page) }
    ensures absent { IsTrue P.tells → OnOk result (AllAbsent (removes O.shape O.per_page removal) (P.pages disk.new)) }
    ensures others { IsTrue P.tells → MayLack (removes O.shape O.per_page removal) (P.pages disk.old) (P.pages disk.new) }
    ensures crash { IsTrue P.tells → CrashLeaves (MayLack (removes O.shape O.per_page removal)) P.images P.moment P.left_at disk.old disk.new }
    ensures cause { CountsFault result (P.faults disk.old) (P.faults disk.new) }
{
    let mut last = None;
    while let Some(page) = disk.after(last)? {
        let end = remove_if::<P, O>(disk, page, removal, per_page)?;
        last = Some(end);
    }
    Ok(())
}

// Removes one page, if it is to be removed. The last page of a row of which, from this one on, none is to be removed then.
fn remove_if<P: PageDisk, O: PageRule>(
    disk: &mut P,
    page: u32,
    removal: Removal,
    per_page: Option<u32>,
) -> Result<u32, Failed>
    requires span { IfSome per_page (λ n. n ≡ O.per_page) }
    ensures fits { page < 2 ^ 32 }
    ensures end { IfOk result (λ end. (page ≤ end) × (end < 2 ^ 32)) }
    ensures stay { IfOk result (λ end. (q : ℕ) → page < q → q ≤ end → removes O.shape O.per_page removal q ≡ false) }
    ensures absent { IsTrue P.tells → OnOk result (removes O.shape O.per_page removal page ≡ true → P.pages disk.new page ≡ None) }
    ensures others { IsTrue P.tells → MayLack (removes O.shape O.per_page removal) (P.pages disk.old) (P.pages disk.new) }
    ensures crash { IsTrue P.tells → CrashLeaves (MayLack (removes O.shape O.per_page removal)) P.images P.moment P.left_at disk.old disk.new }
    ensures cause { CountsFault result (P.faults disk.old) (P.faults disk.new) }
{
    if removal.takes::<O>(page) {
        disk.remove(page)?;
        return Ok(page);
    }
    Ok(removal.row_end::<O>(page, per_page))
}

// Gives one buffer up, if its page was removed.
fn empty_one<O: PageRule>(buffers: &mut [Buffer], at: usize, removal: Removal)
    requires within { at < length buffers.old }
    requires distinct { Distinct buffers.old }
    requires blank { AllBlank (removes O.shape O.per_page removal) buffers.old }
    ensures long { length buffers.new ≡ length buffers.old }
    ensures keep { KeepUpTo (removes O.shape O.per_page removal) at buffers.old → KeepUpTo (removes O.shape O.per_page removal) (at + 1) buffers.new }
    ensures distinct { Distinct buffers.new }
    ensures blank { AllBlank (removes O.shape O.per_page removal) buffers.new }
    ensures agree { (pages : Pages) → AllAgree pages buffers.old → AllAgree pages buffers.new }
    ensures map { (pages : Pages) → AllAbsent (removes O.shape O.per_page removal) pages → SameMap (map_of pages buffers.old) (map_of pages buffers.new) }
{
    buffers[at].empty_if::<O>(removal);
}

// Gives the buffers of removed pages up.
fn empty_all<O: PageRule>(buffers: &mut [Buffer], removal: Removal)
    requires distinct { Distinct buffers.old }
    requires blank { AllBlank (removes O.shape O.per_page removal) buffers.old }
    ensures long { length buffers.new ≡ length buffers.old }
    ensures keep { KeepUpTo (removes O.shape O.per_page removal) (length buffers.new) buffers.new }
    ensures distinct { Distinct buffers.new }
    ensures agree { (pages : Pages) → AllAgree pages buffers.old → AllAgree pages buffers.new }
    ensures map { (pages : Pages) → AllAbsent (removes O.shape O.per_page removal) pages → SameMap (map_of pages buffers.old) (map_of pages buffers.new) }
{
    let mut i = 0;
    while i < buffers.len() {
        empty_one::<O>(buffers, i, removal);
        i += 1;
    }
}

pub(crate) fn empty_removed<O: PageRule>(buffers: &mut Vec<Buffer>, removal: Removal)
    requires distinct { Distinct buffers.old.items }
    requires blank { AllBlank (removes O.shape O.per_page removal) buffers.old.items }
    ensures long { length buffers.new.items ≡ length buffers.old.items }
    ensures keep { KeepUpTo (removes O.shape O.per_page removal) (length buffers.new.items) buffers.new.items }
    ensures distinct { Distinct buffers.new.items }
    ensures agree { (pages : Pages) → AllAgree pages buffers.old.items → AllAgree pages buffers.new.items }
    ensures map { (pages : Pages) → AllAbsent (removes O.shape O.per_page removal) pages → SameMap (map_of pages buffers.old.items) (map_of pages buffers.new.items) }
{
    empty_all::<O>(buffers, removal);
}
