//! Offsets and members are cut.
ghost use Rattle.std.specs.Prelude.{◌≡◌, ℕ, ◌+◌, ◌*◌, ◌<◌, ◌≤◌, [], Err};
ghost use Rattle.hall.specs.Calls.{view, IsOf, start_of};
ghost use Rattle.slru_bank.specs.declared.refusal.BankRefusal.TheVariants.{Cut, DiskFault};
ghost use Rattle.store_pages.specs.Layouts.{multi_before};
ghost use Rattle.tx_core.specs.CutsFollow.{IsTruncated};
ghost use Rattle.tx_core.specs.Locks.{member_page_in_full, members_lock, offset_page, offsets_lock};
ghost use Rattle.engine_parts.specs.Answers.{MetFault};
ghost use Rattle.engine_parts.specs.Sessions.{IsReady, by_at};
ghost use Rattle.engine_parts.specs.Steps.{WentMulti};
ghost use Rattle.multi_banks.specs.Sections.{CutSection};

use crate::entries::{cut_note, with_cut};
use crate::stored::{page_before, stored_members, stored_offsets};
use disk_core::{LogDisk, PageDisk};
use engine_parts::{
    Caller, EngineLaw, Part, Passing, command_of, enter_members, enter_offsets, fault_note,
    leave_quiet,
};
use hall::Hall;
use slru_bank::BankRefusal;
use store_pages::member_page_in_full;
use tx_events::FullMulti;

/// Removes the offsets of the multixacts before the one before the oldest one of a truncation that is on disk
/// (`PerformOffsetsTruncation`), by whole segments. Where the volume fails the cut stands all the same, and some pages
/// may still be there.
pub fn cut_offsets<R: Passing, L: LogDisk, P: PageDisk>(
    rt: &R,
    hall: &Hall<EngineLaw<L, P>>,
    caller: &mut Caller<L, P>,
    bank: u32,
    oldest: FullMulti,
) -> Result<(), BankRefusal>
    requires own { IsOf hall.now caller.old.pass }
    requires laid { hall.now.cells ≡ 3 + 4 * (start_of hall.now).banks }
    requires bank { (bank < (start_of hall.now).banks) × ((start_of hall.now).banks ≤ 16) }
    requires ready { IsReady (start_of hall.now) (view caller.old.pass) caller.old.number caller.old.session }
    requires told { (id : ℕ) × (offset : ℕ) × IsTruncated (start_of hall.now)
        (view caller.old.pass).seen id oldest offset }
    ensures section { CutSection (start_of hall.now) (offsets_lock bank)
        (by_at caller.old.number caller.old.session.levels.commands)
        (offset_page (multi_before oldest)) (view caller.old.pass) (view caller.new.pass) result }
    ensures own { IsOf hall.now caller.new.pass }
    ensures ready { IsReady (start_of hall.now) (view caller.new.pass) caller.new.number caller.new.session }
    ensures went { WentMulti caller.old.number [] (view caller.old.pass).seen (view caller.new.pass).seen }
    ensures fault { result ≡ Err DiskFault → MetFault (view caller.new.pass).seen (offsets_lock bank)
        (by_at caller.old.number caller.old.session.levels.commands) }
    ensures uncut { (cutoff : ℕ) → result ≡ Err (Cut cutoff) → ⊥ }
    ensures same { (caller.new.session ≡ caller.old.session) × (caller.new.number ≡ caller.old.number) }
{
    let mut held = enter_offsets(rt, hall, caller, bank);
    let store = &mut *held;
    let lock = 5 + 4 * bank;
    let by = command_of(caller);
    let page = page_before(oldest);
    match store.truncate(stored_offsets(page)) {
        Ok(()) => {
            let entry = cut_note(by, page);
            leave_quiet(hall, caller, lock, Part::Offsets(held), entry);
            Ok(())
        }
        Err(refusal) => {
            let fault = with_cut(fault_note(by, &*store), page);
            leave_quiet(hall, caller, lock, Part::Offsets(held), fault);
            Err(refusal)
        }
    }
}

/// Removes the members before the oldest offset of a truncation that is on disk (`PerformMembersTruncation`), by whole
/// segments. Where the volume fails the cut stands all the same, and some pages may
/// still be there.
pub fn cut_members<R: Passing, L: LogDisk, P: PageDisk>(
    rt: &R,
    hall: &Hall<EngineLaw<L, P>>,
    caller: &mut Caller<L, P>,
    bank: u32,
    oldest: u64,
) -> Result<(), BankRefusal>
    requires own { IsOf hall.now caller.old.pass }
    requires laid { hall.now.cells ≡ 3 + 4 * (start_of hall.now).banks }
    requires bank { (bank < (start_of hall.now).banks) × ((start_of hall.now).banks ≤ 16) }
    requires ready { IsReady (start_of hall.now) (view caller.old.pass) caller.old.number caller.old.session }
    requires told { (id : ℕ) × (multi : ℕ) × IsTruncated (start_of hall.now)
        (view caller.old.pass).seen id multi oldest }
    ensures section { CutSection (start_of hall.now) (members_lock bank)
        (by_at caller.old.number caller.old.session.levels.commands)
        (member_page_in_full oldest) (view caller.old.pass) (view caller.new.pass) result }
    ensures own { IsOf hall.now caller.new.pass }
    ensures ready { IsReady (start_of hall.now) (view caller.new.pass) caller.new.number caller.new.session }
    ensures went { WentMulti caller.old.number [] (view caller.old.pass).seen (view caller.new.pass).seen }
    ensures fault { result ≡ Err DiskFault → MetFault (view caller.new.pass).seen (members_lock bank)
        (by_at caller.old.number caller.old.session.levels.commands) }
    ensures uncut { (cutoff : ℕ) → result ≡ Err (Cut cutoff) → ⊥ }
    ensures same { (caller.new.session ≡ caller.old.session) × (caller.new.number ≡ caller.old.number) }
{
    let mut held = enter_members(rt, hall, caller, bank);
    let store = &mut *held;
    let lock = 6 + 4 * bank;
    let by = command_of(caller);
    let page = member_page_in_full(oldest);
    match store.truncate(stored_members(page)) {
        Ok(()) => {
            let entry = cut_note(by, page);
            leave_quiet(hall, caller, lock, Part::Members(held), entry);
            Ok(())
        }
        Err(refusal) => {
            let fault = with_cut(fault_note(by, &*store), page);
            leave_quiet(hall, caller, lock, Part::Members(held), fault);
            Err(refusal)
        }
    }
}
