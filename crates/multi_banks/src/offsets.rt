//! Pages of offsets are made, and offsets are set and read.
ghost use Rattle.std.specs.Prelude.{◌≡◌, ℕ, ◌+◌, ◌*◌, ◌<◌, ◌≤◌, ◌∷◌, [], Err, IfOk, IsTrue, OnOk};
ghost use Rattle.hall.specs.Calls.{view, IsOf, start_of};
ghost use Rattle.notes.specs.Lists.{at};
ghost use Rattle.slru_bank.specs.declared.refusal.BankRefusal.TheVariants.{Cut, DiskFault};
ghost use Rattle.store_pages.specs.Layouts.{word_page_of};
ghost use Rattle.tx_events.specs.Multis.{next_made, oldest_multi};
ghost use Rattle.tx_core.specs.declared.entry.Change.TheVariants as changes;
ghost use Rattle.tx_core.specs.declared.entry.Kind.TheVariants as kinds;
ghost use Rattle.tx_core.specs.CutsFollow.{IsOffsetGone};
ghost use Rattle.tx_core.specs.Entries.{Stands};
ghost use Rattle.tx_core.specs.Locks.{offset_page, offsets_lock, offsets_lock_of};
ghost use Rattle.tx_core.specs.MembersBeforeOffset.{OffsetOf};
ghost use Rattle.tx_core.specs.MultiEntries.{AreFewMultis, IsOffsetSet, multi_history};
ghost use Rattle.tx_core.specs.PagesBeforeIds.{IsMultiOf, WasMade};
ghost use Rattle.engine_parts.specs.Answers.{MetFault};
ghost use Rattle.engine_parts.specs.Sessions.{IsReady, by_at};
ghost use Rattle.engine_parts.specs.Steps.{WentMulti};
ghost use Rattle.multi_banks.specs.Offsets.{IsOffsetRead, WasTold};
ghost use Rattle.multi_banks.specs.Sections.{BankSection, IsOffsetCut};

use crate::entries::zeroed_note;
use crate::refused::leave_refused;
use crate::stored::low_offset;
use bank_stores::{offset as stored_offset, set_offset};
use disk_core::{LogDisk, PageDisk};
use engine_parts::{
    Caller, EngineLaw, Part, Passing, command_of, enter_offsets, fault_note, leave_looked,
    leave_quiet,
};
use hall::{Hall, Note};
use slru_bank::BankRefusal;
use store_pages::{offset_page, offset_page_in_full};
use tx_core::Entry;
use tx_events::{By, FullMulti};

fn set_note(by: By, multi: FullMulti, offset: u64) -> Note<Entry>
    ensures { result.value ≡ record { by = by; kind = kinds.Set (changes.Offset by multi offset ∷ []) } }
{
    Note::by(&(by, multi, offset))
}

/// Makes the page of the offset of a multixact that was given or comes next, where the bank's last made page is before
/// it (`ExtendMultiXactOffset` of `src/backend/access/transam/multixact.c`).
pub fn make_offset_page<R: Passing, L: LogDisk, P: PageDisk>(
    rt: &R,
    hall: &Hall<EngineLaw<L, P>>,
    caller: &mut Caller<L, P>,
    bank: u32,
    multi: FullMulti,
) -> Result<(), BankRefusal>
    requires own { IsOf hall.now caller.old.pass }
    requires laid { hall.now.cells ≡ 3 + 4 * (start_of hall.now).banks }
    requires bank { (bank < (start_of hall.now).banks) × ((start_of hall.now).banks ≤ 16) }
    requires ready { IsReady (start_of hall.now) (view caller.old.pass) caller.old.number caller.old.session }
    requires here { offsets_lock_of (start_of hall.now) multi ≡ offsets_lock bank }
    requires wanted { IsMultiOf (start_of hall.now) (view caller.old.pass).seen multi }
    ensures section { BankSection (start_of hall.now) (offsets_lock bank)
        (by_at caller.old.number caller.old.session.levels.commands)
        (IsOffsetCut (start_of hall.now) (view caller.new.pass).seen bank (word_page_of multi))
        (kinds.Zero (offset_page multi)) (view caller.old.pass) (view caller.new.pass) result }
    ensures own { IsOf hall.now caller.new.pass }
    ensures ready { IsReady (start_of hall.now) (view caller.new.pass) caller.new.number caller.new.session }
    ensures went { WentMulti caller.old.number [] (view caller.old.pass).seen (view caller.new.pass).seen }
    ensures made { OnOk result (Stands (view caller.new.pass).seen (offsets_lock bank) (kinds.Zero
        (offset_page multi))) }
    ensures fault { result ≡ Err DiskFault → MetFault (view caller.new.pass).seen (offsets_lock bank)
        (by_at caller.old.number caller.old.session.levels.commands) }
    // Where it is cut in a life of few multixacts an entry cut it.
    ensures gone { AreFewMultis (view caller.new.pass).seen → (cutoff : ℕ) → result ≡ Err (Cut cutoff)
        → IsOffsetGone (at (view caller.new.pass).seen (offsets_lock bank)) multi }
    ensures same { (caller.new.session ≡ caller.old.session) × (caller.new.number ≡ caller.old.number) }
{
    let mut held = enter_offsets(rt, hall, caller, bank);
    let store = &mut *held;
    let lock = 5 + 4 * bank;
    let by = command_of(caller);
    match store.zero(offset_page(multi.low())) {
        Ok(()) => {
            let entry = zeroed_note(by, offset_page_in_full(multi));
            leave_quiet(hall, caller, lock, Part::Offsets(held), entry);
            Ok(())
        }
        Err(refusal) => {
            let fault = fault_note(by, &*store);
            leave_refused(hall, caller, lock, Part::Offsets(held), refusal, fault);
            Err(refusal)
        }
    }
}

/// Sets the offset of a multixact that the session recorded, all of whose members stand (`RecordNewMultiXact`). Its page
/// was made before. After an error nothing is set.
pub fn record_offset<R: Passing, L: LogDisk, P: PageDisk>(
    rt: &R,
    hall: &Hall<EngineLaw<L, P>>,
    caller: &mut Caller<L, P>,
    bank: u32,
    multi: FullMulti,
    offset: u64,
) -> Result<(), BankRefusal>
    requires own { IsOf hall.now caller.old.pass }
    requires laid { hall.now.cells ≡ 3 + 4 * (start_of hall.now).banks }
    requires bank { (bank < (start_of hall.now).banks) × ((start_of hall.now).banks ≤ 16) }
    requires ready { IsReady (start_of hall.now) (view caller.old.pass) caller.old.number caller.old.session }
    requires here { offsets_lock_of (start_of hall.now) multi ≡ offsets_lock bank }
    requires made { WasMade (at (view caller.old.pass).seen (offsets_lock bank)) (offset_page
        (start_of hall.now).base.multi) (offset_page multi) }
    requires may { OffsetOf (start_of hall.now) (view caller.old.pass).seen
        (record {
          caller = by_at caller.old.number caller.old.session.levels.commands;
          multi = multi;
          offset = offset;
        }) }
    ensures section { BankSection (start_of hall.now) (offsets_lock bank)
        (by_at caller.old.number caller.old.session.levels.commands)
        (IsOffsetCut (start_of hall.now) (view caller.new.pass).seen bank (word_page_of multi))
        (kinds.Set (changes.Offset (by_at caller.old.number caller.old.session.levels.commands) multi offset ∷ []))
        (view caller.old.pass) (view caller.new.pass) result }
    ensures own { IsOf hall.now caller.new.pass }
    ensures ready { IsReady (start_of hall.now) (view caller.new.pass) caller.new.number caller.new.session }
    ensures went { WentMulti caller.old.number [] (view caller.old.pass).seen (view caller.new.pass).seen }
    ensures set { OnOk result (IsOffsetSet (start_of hall.now) (view caller.new.pass).seen multi offset) }
    ensures fault { result ≡ Err DiskFault → MetFault (view caller.new.pass).seen (offsets_lock bank)
        (by_at caller.old.number caller.old.session.levels.commands) }
    ensures gone { AreFewMultis (view caller.new.pass).seen → (cutoff : ℕ) → result ≡ Err (Cut cutoff)
        → IsOffsetGone (at (view caller.new.pass).seen (offsets_lock bank)) multi }
    ensures same { (caller.new.session ≡ caller.old.session) × (caller.new.number ≡ caller.old.number) }
{
    let mut held = enter_offsets(rt, hall, caller, bank);
    let store = &mut *held;
    let lock = 5 + 4 * bank;
    let by = command_of(caller);
    match set_offset(&mut *store, multi.low(), low_offset(offset)) {
        Ok(()) => {
            let entry = set_note(by, multi, offset);
            leave_quiet(hall, caller, lock, Part::Offsets(held), entry);
            Ok(())
        }
        Err(refusal) => {
            let fault = fault_note(by, &*store);
            leave_refused(hall, caller, lock, Part::Offsets(held), refusal, fault);
            Err(refusal)
        }
    }
}

/// The low half of the offset of a multixact, None where none stands (`GetMultiXactIdMembers`). Where the multixact isn't
/// before the announced oldest one, nor past the next one, its page isn't cut, in a life of few multixacts.
pub fn read_offset<R: Passing, L: LogDisk, P: PageDisk>(
    rt: &R,
    hall: &Hall<EngineLaw<L, P>>,
    caller: &mut Caller<L, P>,
    bank: u32,
    multi: FullMulti,
) -> Result<Option<u32>, BankRefusal>
    requires own { IsOf hall.now caller.old.pass }
    requires laid { hall.now.cells ≡ 3 + 4 * (start_of hall.now).banks }
    requires bank { (bank < (start_of hall.now).banks) × ((start_of hall.now).banks ≤ 16) }
    requires ready { IsReady (start_of hall.now) (view caller.old.pass) caller.old.number caller.old.session }
    requires here { offsets_lock_of (start_of hall.now) multi ≡ offsets_lock bank }
    ensures section { BankSection (start_of hall.now) (offsets_lock bank)
        (by_at caller.old.number caller.old.session.levels.commands)
        (IsOffsetCut (start_of hall.now) (view caller.new.pass).seen bank (word_page_of multi))
        kinds.Look (view caller.old.pass) (view caller.new.pass) result }
    ensures own { IsOf hall.now caller.new.pass }
    ensures ready { IsReady (start_of hall.now) (view caller.new.pass) caller.new.number caller.new.session }
    ensures went { WentMulti caller.old.number [] (view caller.old.pass).seen (view caller.new.pass).seen }
    // Of one whose page may be gone nothing is told, so only of one from the announced oldest one on.
    ensures offset { IsTrue P.tells → oldest_multi (start_of hall.now).base.oldest_multi (multi_history
        (view caller.new.pass).seen) ≤ multi
        → IfOk result (IsOffsetRead (start_of hall.now) (view caller.new.pass).seen multi) }
    ensures begun { IsTrue P.tells → AreFewMultis (view caller.new.pass).seen → OnOk result (WasTold (start_of hall.now)) }
    ensures fault { result ≡ Err DiskFault → MetFault (view caller.new.pass).seen (offsets_lock bank)
        (by_at caller.old.number caller.old.session.levels.commands) }
    ensures uncut { AreFewMultis (view caller.new.pass).seen → oldest_multi (start_of hall.now).base.oldest_multi
        (multi_history (view caller.new.pass).seen) ≤ multi
        → multi ≤ next_made (start_of hall.now).base.multi (multi_history (view caller.new.pass).seen)
        → (cutoff : ℕ) → result ≡ Err (Cut cutoff) → ⊥ }
    ensures same { (caller.new.session ≡ caller.old.session) × (caller.new.number ≡ caller.old.number) }
{
    let mut held = enter_offsets(rt, hall, caller, bank);
    let store = &mut *held;
    let lock = 5 + 4 * bank;
    let by = command_of(caller);
    match stored_offset(&mut *store, multi.low()) {
        Ok(found) => {
            leave_looked(hall, caller, lock, Part::Offsets(held));
            Ok(found)
        }
        Err(refusal) => {
            let fault = fault_note(by, &*store);
            leave_refused(hall, caller, lock, Part::Offsets(held), refusal, fault);
            Err(refusal)
        }
    }
}
