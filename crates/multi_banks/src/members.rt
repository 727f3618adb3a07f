//! Pages of members are made, and members are set and read, page by page.
ghost use Rattle.std.specs.Prelude.{◌≡◌, ℕ, ◌+◌, ◌*◌, ◌<◌, ◌≤◌, ◌++◌, [], Err, IsTrue, List, OnErr, OnOk, Some, length, slice_get, vec_capacity};
ghost use Rattle.hall.specs.Calls.{view, IsOf, start_of};
ghost use Rattle.bank_stores.specs.declared.slot.Slot.{Slot};
ghost use Rattle.notes.specs.Lists.{at};
ghost use Rattle.slru_bank.specs.declared.refusal.BankRefusal.TheVariants.{Cut, DiskFault};
ghost use Rattle.store_pages.specs.Layouts.{member_page_of};
ghost use Rattle.tx_events.specs.Multis.{free_offset, oldest_offset};
ghost use Rattle.tx_events.specs.declared.multi.Member.{Member};
ghost use Rattle.tx_core.specs.declared.entry.Kind.TheVariants as kinds;
ghost use Rattle.tx_core.specs.CutsFollow.{IsMemberGone};
ghost use Rattle.tx_core.specs.Entries.{Stands};
ghost use Rattle.tx_core.specs.Locks.{member_page_in_full, members_lock, members_lock_of};
ghost use Rattle.tx_core.specs.MembersBeforeOffset.{SlotOf};
ghost use Rattle.tx_core.specs.MultiEntries.{AreFewMultis, IsSlotSet, multi_history};
ghost use Rattle.tx_core.specs.PagesBeforeIds.{IsOffsetOf, WasMade};
ghost use Rattle.engine_parts.specs.Answers.{MetFault};
ghost use Rattle.engine_parts.specs.Sessions.{IsReady, by_at};
ghost use Rattle.engine_parts.specs.Steps.{WentMulti};
ghost use Rattle.multi_banks.specs.Members.{AreSlotsRead, SharePage, slots_set};
ghost use Rattle.multi_banks.specs.Sections.{BankSection, IsMemberCut};

use crate::entries::zeroed_note;
use crate::refused::leave_refused;
use crate::stored::low_offset;
use bank_stores::{Slot, read_members as stored_members, write_members};
use disk_core::{LogDisk, PageDisk};
use engine_parts::{
    Caller, EngineLaw, Part, Passing, command_of, enter_members, fault_note, leave_looked,
    leave_quiet,
};
use hall::{Hall, Note};
use slru_bank::BankRefusal;
use store_pages::{member_page, member_page_in_full};
use tx_core::Entry;
use tx_events::{By, Member};

fn set_note(by: By, offset: u64, members: &[Member]) -> Note<Entry>
    ensures { result.value ≡ record { by = by; kind = kinds.Set (slots_set by offset members.now) } }
{
    Note::by(&(by, offset, members))
}

/// Makes the page of the member at an offset that was given or comes next, where the bank's last made page is before it
/// (`ExtendMultiXactMember` of `src/backend/access/transam/multixact.c`).
pub fn make_member_page<R: Passing, L: LogDisk, P: PageDisk>(
    rt: &R,
    hall: &Hall<EngineLaw<L, P>>,
    caller: &mut Caller<L, P>,
    bank: u32,
    offset: u64,
) -> Result<(), BankRefusal>
    requires own { IsOf hall.now caller.old.pass }
    requires laid { hall.now.cells ≡ 3 + 4 * (start_of hall.now).banks }
    requires bank { (bank < (start_of hall.now).banks) × ((start_of hall.now).banks ≤ 16) }
    requires ready { IsReady (start_of hall.now) (view caller.old.pass) caller.old.number caller.old.session }
    requires here { members_lock_of (start_of hall.now) offset ≡ members_lock bank }
    requires wanted { IsOffsetOf (start_of hall.now) (view caller.old.pass).seen offset }
    ensures section { BankSection (start_of hall.now) (members_lock bank)
        (by_at caller.old.number caller.old.session.levels.commands)
        (IsMemberCut (start_of hall.now) (view caller.new.pass).seen bank (member_page_of offset))
        (kinds.Zero (member_page_in_full offset)) (view caller.old.pass) (view caller.new.pass) result }
    ensures own { IsOf hall.now caller.new.pass }
    ensures ready { IsReady (start_of hall.now) (view caller.new.pass) caller.new.number caller.new.session }
    ensures went { WentMulti caller.old.number [] (view caller.old.pass).seen (view caller.new.pass).seen }
    ensures made { OnOk result (Stands (view caller.new.pass).seen (members_lock bank) (kinds.Zero
        (member_page_in_full offset))) }
    ensures fault { result ≡ Err DiskFault → MetFault (view caller.new.pass).seen (members_lock bank)
        (by_at caller.old.number caller.old.session.levels.commands) }
    ensures gone { AreFewMultis (view caller.new.pass).seen → (cutoff : ℕ) → result ≡ Err (Cut cutoff)
        → IsMemberGone (at (view caller.new.pass).seen (members_lock bank)) offset }
    ensures same { (caller.new.session ≡ caller.old.session) × (caller.new.number ≡ caller.old.number) }
{
    let mut held = enter_members(rt, hall, caller, bank);
    let store = &mut *held;
    let lock = 6 + 4 * bank;
    let by = command_of(caller);
    match store.zero(member_page(low_offset(offset))) {
        Ok(()) => {
            let entry = zeroed_note(by, member_page_in_full(offset));
            leave_quiet(hall, caller, lock, Part::Members(held), entry);
            Ok(())
        }
        Err(refusal) => {
            let fault = fault_note(by, &*store);
            leave_refused(hall, caller, lock, Part::Members(held), refusal, fault);
            Err(refusal)
        }
    }
}

/// Sets members of a multixact that the session recorded, which share a page, one behind the other from this offset on
/// (`RecordNewMultiXact`). The page was made before. After an error none is set.
pub fn record_members<R: Passing, L: LogDisk, P: PageDisk>(
    rt: &R,
    hall: &Hall<EngineLaw<L, P>>,
    caller: &mut Caller<L, P>,
    bank: u32,
    offset: u64,
    members: &[Member],
) -> Result<(), BankRefusal>
    requires own { IsOf hall.now caller.old.pass }
    requires laid { hall.now.cells ≡ 3 + 4 * (start_of hall.now).banks }
    requires bank { (bank < (start_of hall.now).banks) × ((start_of hall.now).banks ≤ 16) }
    requires ready { IsReady (start_of hall.now) (view caller.old.pass) caller.old.number caller.old.session }
    requires here { members_lock_of (start_of hall.now) offset ≡ members_lock bank }
    requires some { 1 ≤ length members.now }
    requires share { SharePage offset (length members.now) }
    requires made { WasMade (at (view caller.old.pass).seen (members_lock bank)) (member_page_in_full
        (start_of hall.now).base.offset) (member_page_in_full offset) }
    requires may { (k : ℕ) (member : Member) → slice_get members.now k ≡ Some member → SlotOf
        (view caller.old.pass).seen
        (record {
          caller = by_at caller.old.number caller.old.session.levels.commands;
          offset = offset + k;
          member =
              member;
        }) }
    ensures section { BankSection (start_of hall.now) (members_lock bank)
        (by_at caller.old.number caller.old.session.levels.commands)
        (IsMemberCut (start_of hall.now) (view caller.new.pass).seen bank (member_page_of offset))
        (kinds.Set (slots_set (by_at caller.old.number caller.old.session.levels.commands) offset members.now))
        (view caller.old.pass) (view caller.new.pass) result }
    ensures own { IsOf hall.now caller.new.pass }
    ensures ready { IsReady (start_of hall.now) (view caller.new.pass) caller.new.number caller.new.session }
    ensures went { WentMulti caller.old.number [] (view caller.old.pass).seen (view caller.new.pass).seen }
    ensures set { OnOk result ((k : ℕ) (member : Member) → slice_get members.now k ≡ Some member
        → IsSlotSet (start_of hall.now) (view caller.new.pass).seen (offset + k) member) }
    ensures fault { result ≡ Err DiskFault → MetFault (view caller.new.pass).seen (members_lock bank)
        (by_at caller.old.number caller.old.session.levels.commands) }
    ensures gone { AreFewMultis (view caller.new.pass).seen → (cutoff : ℕ) → result ≡ Err (Cut cutoff)
        → IsMemberGone (at (view caller.new.pass).seen (members_lock bank)) offset }
    ensures same { (caller.new.session ≡ caller.old.session) × (caller.new.number ≡ caller.old.number) }
{
    let mut held = enter_members(rt, hall, caller, bank);
    let store = &mut *held;
    let lock = 6 + 4 * bank;
    let by = command_of(caller);
    match write_members(&mut *store, low_offset(offset), members) {
        Ok(()) => {
            let entry = set_note(by, offset, members);
            leave_quiet(hall, caller, lock, Part::Members(held), entry);
            Ok(())
        }
        Err(refusal) => {
            let fault = fault_note(by, &*store);
            leave_refused(hall, caller, lock, Part::Members(held), refusal, fault);
            Err(refusal)
        }
    }
}

/// What stands in so many slots of one page from an offset on, which are put behind those that are there
/// (`GetMultiXactIdMembers`). Where the offset isn't before the announced oldest one, nor past the next free one, its
/// page isn't cut, in a life of few multixacts. After an error none is put there.
pub fn read_members<R: Passing, L: LogDisk, P: PageDisk>(
    rt: &R,
    hall: &Hall<EngineLaw<L, P>>,
    caller: &mut Caller<L, P>,
    bank: u32,
    offset: u64,
    count: u32,
    into: &mut Vec<Slot>,
) -> Result<(), BankRefusal>
    requires own { IsOf hall.now caller.old.pass }
    requires laid { hall.now.cells ≡ 3 + 4 * (start_of hall.now).banks }
    requires bank { (bank < (start_of hall.now).banks) × ((start_of hall.now).banks ≤ 16) }
    requires ready { IsReady (start_of hall.now) (view caller.old.pass) caller.old.number caller.old.session }
    requires here { members_lock_of (start_of hall.now) offset ≡ members_lock bank }
    requires some { 1 ≤ count }
    requires share { SharePage offset count }
    requires room { length into.old.items + count ≤ vec_capacity into.old }
    ensures section { BankSection (start_of hall.now) (members_lock bank)
        (by_at caller.old.number caller.old.session.levels.commands)
        (IsMemberCut (start_of hall.now) (view caller.new.pass).seen bank (member_page_of offset))
        kinds.Look (view caller.old.pass) (view caller.new.pass) result }
    ensures own { IsOf hall.now caller.new.pass }
    ensures ready { IsReady (start_of hall.now) (view caller.new.pass) caller.new.number caller.new.session }
    ensures went { WentMulti caller.old.number [] (view caller.old.pass).seen (view caller.new.pass).seen }
    ensures slots { IsTrue P.tells → oldest_offset (start_of hall.now).base.oldest_offset (multi_history
        (view caller.new.pass).seen) ≤ offset
        → OnOk result ((slots : List Slot) × (into.new.items ≡ into.old.items ++ slots) × (length slots ≡ count)
        × AreSlotsRead (start_of hall.now) (view caller.new.pass).seen offset slots) }
    ensures long { OnOk result (length into.new.items ≡ length into.old.items + count) }
    ensures none { OnErr result (into.new.items ≡ into.old.items) }
    ensures room { vec_capacity into.new ≡ vec_capacity into.old }
    ensures fault { result ≡ Err DiskFault → MetFault (view caller.new.pass).seen (members_lock bank)
        (by_at caller.old.number caller.old.session.levels.commands) }
    ensures uncut { AreFewMultis (view caller.new.pass).seen → oldest_offset (start_of hall.now).base.oldest_offset
        (multi_history (view caller.new.pass).seen) ≤ offset
        → offset ≤ free_offset (start_of hall.now).base.offset (multi_history (view caller.new.pass).seen)
        → (cutoff : ℕ) → result ≡ Err (Cut cutoff) → ⊥ }
    ensures same { (caller.new.session ≡ caller.old.session) × (caller.new.number ≡ caller.old.number) }
{
    let mut held = enter_members(rt, hall, caller, bank);
    let store = &mut *held;
    let lock = 6 + 4 * bank;
    let by = command_of(caller);
    match stored_members(&mut *store, low_offset(offset), count, into) {
        Ok(()) => {
            leave_looked(hall, caller, lock, Part::Members(held));
            Ok(())
        }
        Err(refusal) => {
            let fault = fault_note(by, &*store);
            leave_refused(hall, caller, lock, Part::Members(held), refusal, fault);
            Err(refusal)
        }
    }
}
