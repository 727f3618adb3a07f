// The states past the last id, cleared as a life begins.
ghost use Rattle.std.specs.Prelude.{◌≡◌, ◌≢◌, ℕ, ◌+◌, ◌-◌, ◌*◌, ◌/◌, ◌%◌, ◌^◌, ◌<◌, ◌≤◌, Bool, true, IsTrue, List, slice_index, slice_set, bit_and, OnOk, OnErr, IfOk, Err};
ghost use Rattle.disk_core.specs.Faults.{HasRisen};
ghost use Rattle.tx_events.specs.Ids.{low_half};
ghost use Rattle.tx_events.specs.PageOrder.{Ids, page_precedes};
ghost use Rattle.store_pages.specs.Layouts.{xact_page_of, xact_place_of};
ghost use Rattle.tx_events.specs.Pages.{xacts_per_page};
ghost use Rattle.slru_bank.specs.Bank.{masked, PutsPage, IsPage};
ghost use Rattle.slru_bank.specs.Calls.{CrashMayLack, IsCut, SamePages, cutoff_of, faults_of, last_page, pages_of};
ghost use Rattle.slru_bank.specs.Removal.{MayDrop};
ghost use Rattle.slru_bank.specs.declared.refusal.BankRefusal.TheVariants.{Cut, DiskFault};
ghost use Rattle.slru_bank.specs.Changes.{TrimsStates};
ghost use Rattle.slru_bank.specs.States.{times_4};

use crate::{BankRefusal, SlruBank};
use disk_core::PageDisk;
use store_pages::{XactPages, xact_page, xact_place};
use tx_events::FullXid;

// The bits of a byte's ids from this one on, for an id that isn't its first.
fn mask_from(place: u32) -> u8
    requires first { 1 ≤ place }
    requires past { place < 4 }
    ensures { result ≡ 256 - times_4 1 place }
{
    match place {
        1 => 252,
        2 => 240,
        _ => 192,
    }
}

/// Clears the states from an id on: the rest of its page, and each later page is removed (`TrimCLOG`). A bank that isn't
/// the page's loses its later pages alone. After `Cut` nothing is changed, after `DiskFault` some of the later pages are
/// removed and no other one changed.
pub fn trim_after<P: PageDisk>(
    bank: &mut SlruBank<P, XactPages>,
    next: FullXid,
) -> Result<(), BankRefusal>
    ensures ok { IsTrue P.tells → OnOk result (TrimsStates (xact_page_of next) (xact_place_of next) (pages_of bank.old) (pages_of bank.new)) }
    ensures err { IsTrue P.tells → OnErr result (MayDrop (page_precedes Ids xacts_per_page (xact_page_of next)) (pages_of bank.old) (pages_of bank.new)) }
    ensures last { last_page bank.new ≡ last_page bank.old }
    ensures cutoff { cutoff_of bank.new ≡ cutoff_of bank.old }
    // Only where the id isn't the first of its byte, since that byte is read then.
    ensures cut { low_half next % 4 ≢ 0 → IsCut (xact_page_of next) bank.old → result ≡ Err (Cut (cutoff_of bank.old)) }
    ensures only_cut { (c : ℕ) → result ≡ Err (Cut c) → (c ≡ cutoff_of bank.old) × (low_half next % 4 ≢ 0) × IsCut (xact_page_of next) bank.old }
    ensures cut_same { IsTrue P.tells → (c : ℕ) → result ≡ Err (Cut c) → SamePages bank.old bank.new }
    ensures fault { result ≡ Err DiskFault → HasRisen (faults_of bank.old) (faults_of bank.new) }
    ensures count { faults_of bank.old ≤ faults_of bank.new }
    ensures crash { CrashMayLack (page_precedes Ids xacts_per_page (xact_page_of next)) bank.old bank.new }
{
    let x = next.low();
    let page = xact_page(x);
    let place = xact_place(x);
    if place % 4 == 0 {
        return bank.clear_after(page, place / 4);
    }
    trim_within(bank, page, place)
}

// The same for a place that isn't the first of its byte.
fn trim_within<P: PageDisk>(
    bank: &mut SlruBank<P, XactPages>,
    page: u32,
    place: u32,
) -> Result<(), BankRefusal>
    requires odd { place % 4 ≢ 0 }
    requires within { place < xacts_per_page }
    ensures ok { IsTrue P.tells → OnOk result (TrimsStates page place (pages_of bank.old) (pages_of bank.new)) }
    ensures err { IsTrue P.tells → OnErr result (MayDrop (page_precedes Ids xacts_per_page page) (pages_of bank.old) (pages_of bank.new)) }
    ensures last { last_page bank.new ≡ last_page bank.old }
    ensures cutoff { cutoff_of bank.new ≡ cutoff_of bank.old }
    ensures cut { IsCut page bank.old → result ≡ Err (Cut (cutoff_of bank.old)) }
    ensures only_cut { (c : ℕ) → result ≡ Err (Cut c) → (c ≡ cutoff_of bank.old) × IsCut page bank.old }
    ensures cut_same { IsTrue P.tells → (c : ℕ) → result ≡ Err (Cut c) → SamePages bank.old bank.new }
    ensures fault { result ≡ Err DiskFault → HasRisen (faults_of bank.old) (faults_of bank.new) }
    ensures count { faults_of bank.old ≤ faults_of bank.new }
    ensures crash { CrashMayLack (page_precedes Ids xacts_per_page page) bank.old bank.new }
{
    let mut byte = [0; 1];
    bank.read(page, place / 4, &mut byte)?;
    bank.clear_after(page, place / 4 + 1)?;
    let mask = mask_from(place % 4);
    if byte[0] & mask == 0 {
        return Ok(());
    }
    bank.set(page, place / 4, mask, 0)
}
