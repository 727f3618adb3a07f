//! States and parents are cut.
ghost use Rattle.std.specs.Prelude.{◌≡◌, ℕ, ◌+◌, ◌*◌, ◌<◌, ◌≤◌, [], Err, length, take};
ghost use Rattle.hall.specs.Calls.{view, IsOf, start_of};
ghost use Rattle.slru_bank.specs.declared.refusal.BankRefusal.TheVariants.{Cut, DiskFault};
ghost use Rattle.store_pages.specs.Layouts.{subtrans_cut_page, xact_cut_page};
ghost use Rattle.tx_events.specs.Horizon.{oldest_xmin};
ghost use Rattle.tx_core.specs.CutsFollow.{IsTruncated};
ghost use Rattle.tx_core.specs.Entries.{history};
ghost use Rattle.tx_core.specs.Locks.{subtrans_lock, xact_lock};
ghost use Rattle.engine_parts.specs.Answers.{MetFault};
ghost use Rattle.engine_parts.specs.Sessions.{IsReady, by_at};
ghost use Rattle.engine_parts.specs.Steps.{WentMulti};
ghost use Rattle.bank_sections.specs.Cuts.{CutSection};

use crate::cut_entries::{cut_note, with_cut};
use crate::stored::{stored_parents, stored_states};
use disk_core::{LogDisk, PageDisk};
use engine_parts::{
    Caller, EngineLaw, Part, Passing, command_of, enter_subtrans, enter_xact, fault_note,
    leave_quiet,
};
use hall::Hall;
use slru_bank::BankRefusal;
use store_pages::{subtrans_cut_page, xact_cut_page};
use tx_events::FullXid;

/// Removes the states of the ids before the oldest one of a truncation that is on disk (`TruncateCLOG` of
/// `src/backend/access/transam/clog.c`), by whole segments of 32 pages, as far as a life cuts that began with the oldest
/// id `first` (`xact_cut_page`). Where the volume fails the cut stands all the same, and some pages may still be there.
pub fn cut_states<R: Passing, L: LogDisk, P: PageDisk>(
    rt: &R,
    hall: &Hall<EngineLaw<L, P>>,
    caller: &mut Caller<L, P>,
    bank: u32,
    first: FullXid,
    oldest: FullXid,
) -> Result<(), BankRefusal>
    requires own { IsOf hall.now caller.old.pass }
    requires laid { hall.now.cells ≡ 3 + 4 * (start_of hall.now).banks }
    requires bank { (bank < (start_of hall.now).banks) × ((start_of hall.now).banks ≤ 16) }
    requires ready { IsReady (start_of hall.now) (view caller.old.pass) caller.old.number caller.old.session }
    requires first { first ≡ (start_of hall.now).base.oldest }
    requires told { (multi : ℕ) × (offset : ℕ) × IsTruncated (start_of hall.now)
        (view caller.old.pass).seen oldest multi offset }
    ensures section { CutSection (start_of hall.now) (xact_lock bank)
        (by_at caller.old.number caller.old.session.levels.commands)
        (xact_cut_page first oldest) (view caller.old.pass) (view caller.new.pass) result }
    ensures own { IsOf hall.now caller.new.pass }
    ensures ready { IsReady (start_of hall.now) (view caller.new.pass) caller.new.number caller.new.session }
    ensures went { WentMulti caller.old.number [] (view caller.old.pass).seen (view caller.new.pass).seen }
    ensures fault { result ≡ Err DiskFault → MetFault (view caller.new.pass).seen (xact_lock bank)
        (by_at caller.old.number caller.old.session.levels.commands) }
    ensures uncut { (cutoff : ℕ) → result ≡ Err (Cut cutoff) → ⊥ }
    ensures same { (caller.new.session ≡ caller.old.session) × (caller.new.number ≡ caller.old.number) }
{
    let mut held = enter_xact(rt, hall, caller, bank);
    let store = &mut *held;
    let lock = 3 + 4 * bank;
    let by = command_of(caller);
    let page = xact_cut_page(first, oldest);
    match store.truncate(stored_states(page)) {
        Ok(()) => {
            let entry = cut_note(by, page);
            leave_quiet(hall, caller, lock, Part::Xact(held), entry);
            Ok(())
        }
        Err(refusal) => {
            let fault = with_cut(fault_note(by, &*store), page);
            leave_quiet(hall, caller, lock, Part::Xact(held), fault);
            Err(refusal)
        }
    }
}

/// Removes the parents of the ids before the one before an oldest xmin (`TruncateSUBTRANS` of
/// `src/backend/access/transam/subtrans.c`), by whole segments of 32 pages, as far as a life cuts that began with the
/// oldest id `first` (`subtrans_cut_page`). Where the volume fails the cut stands all the same, and some pages may still
/// be there.
pub fn cut_parents<R: Passing, L: LogDisk, P: PageDisk>(
    rt: &R,
    hall: &Hall<EngineLaw<L, P>>,
    caller: &mut Caller<L, P>,
    bank: u32,
    first: FullXid,
    xmin: FullXid,
) -> Result<(), BankRefusal>
    requires own { IsOf hall.now caller.old.pass }
    requires laid { hall.now.cells ≡ 3 + 4 * (start_of hall.now).banks }
    requires bank { (bank < (start_of hall.now).banks) × ((start_of hall.now).banks ≤ 16) }
    requires ready { IsReady (start_of hall.now) (view caller.old.pass) caller.old.number caller.old.session }
    requires first { first ≡ (start_of hall.now).base.oldest }
    requires some { 1 ≤ xmin }
    requires told { (place : ℕ) × (place ≤ length (history (view caller.old.pass).seen))
        × (xmin ≡ oldest_xmin (start_of hall.now).base.next (take place (history (view caller.old.pass).seen))) }
    ensures section { CutSection (start_of hall.now) (subtrans_lock bank)
        (by_at caller.old.number caller.old.session.levels.commands)
        (subtrans_cut_page first xmin) (view caller.old.pass) (view caller.new.pass) result }
    ensures own { IsOf hall.now caller.new.pass }
    ensures ready { IsReady (start_of hall.now) (view caller.new.pass) caller.new.number caller.new.session }
    ensures went { WentMulti caller.old.number [] (view caller.old.pass).seen (view caller.new.pass).seen }
    ensures fault { result ≡ Err DiskFault → MetFault (view caller.new.pass).seen (subtrans_lock bank)
        (by_at caller.old.number caller.old.session.levels.commands) }
    ensures uncut { (cutoff : ℕ) → result ≡ Err (Cut cutoff) → ⊥ }
    ensures same { (caller.new.session ≡ caller.old.session) × (caller.new.number ≡ caller.old.number) }
{
    let mut held = enter_subtrans(rt, hall, caller, bank);
    let store = &mut *held;
    let lock = 4 + 4 * bank;
    let by = command_of(caller);
    let page = subtrans_cut_page(first, xmin);
    match store.truncate(stored_parents(page)) {
        Ok(()) => {
            let entry = cut_note(by, page);
            leave_quiet(hall, caller, lock, Part::Subtrans(held), entry);
            Ok(())
        }
        Err(refusal) => {
            let fault = with_cut(fault_note(by, &*store), page);
            leave_quiet(hall, caller, lock, Part::Subtrans(held), fault);
            Err(refusal)
        }
    }
}
