//! Pages of pg_subtrans are made, and parents are set and read.
ghost use Rattle.std.specs.Prelude.{◌≡◌, ℕ, ◌+◌, ◌*◌, ◌^◌, ◌<◌, ◌≤◌, ◌∷◌, [], Contains, Err, IfOk, IsTrue, OnOk};
ghost use Rattle.hall.specs.Calls.{view, IsOf, start_of};
ghost use Rattle.slru_bank.specs.declared.refusal.BankRefusal.TheVariants.{Cut, DiskFault};
ghost use Rattle.tx_core.specs.declared.entry.Change.TheVariants as changes;
ghost use Rattle.tx_core.specs.declared.entry.Kind.TheVariants as kinds;
ghost use Rattle.store_pages.specs.Layouts.{word_page_of};
ghost use Rattle.tx_events.specs.Horizon.{oldest_xmin};
ghost use Rattle.tx_core.specs.Entries.{AreFewIds, IsLinked, Stands, history};
ghost use Rattle.tx_core.specs.Locks.{subtrans_lock, subtrans_lock_of, subtrans_page};
ghost use Rattle.tx_core.specs.PagesBeforeIds.{IsIdOf};
ghost use Rattle.tx_core.specs.ParentsFollow.{IsGivenBelow};
ghost use Rattle.engine_parts.specs.Answers.{MetFault};
ghost use Rattle.engine_parts.specs.Sessions.{IsReady, by_at};
ghost use Rattle.engine_parts.specs.Steps.{WentOn};
ghost use Rattle.bank_sections.specs.Reads.{IsParentNear, IsParentRead};
ghost use Rattle.bank_sections.specs.Sections.{BankSection, IsSubtransCut};

use crate::entries::zeroed_note;
use crate::refused::leave_refused;
use bank_stores::{parent as stored_parent, set_parent};
use disk_core::{LogDisk, PageDisk};
use engine_parts::{
    Caller, EngineLaw, Part, Passing, command_of, enter_subtrans, fault_note, leave_looked,
    leave_quiet,
};
use hall::{Hall, Note};
use slru_bank::BankRefusal;
use store_pages::subtrans_page;
use tx_core::Entry;
use tx_events::{By, FullXid, Xid, near, subtrans_page_in_full};

/// Makes the page of the parent of `id`, which was given or comes next, where the bank's last made page is before it
/// (`ExtendSUBTRANS` of `subtrans.c`). The page of an id that isn't before the oldest xmin isn't cut, in a life of few
/// ids.
pub fn make_parents<R: Passing, L: LogDisk, P: PageDisk>(
    rt: &R,
    hall: &Hall<EngineLaw<L, P>>,
    caller: &mut Caller<L, P>,
    bank: u32,
    id: FullXid,
) -> Result<(), BankRefusal>
    requires own { IsOf hall.now caller.old.pass }
    requires laid { hall.now.cells ≡ 3 + 4 * (start_of hall.now).banks }
    requires bank { (bank < (start_of hall.now).banks) × ((start_of hall.now).banks ≤ 16) }
    requires ready { IsReady (start_of hall.now) (view caller.old.pass) caller.old.number caller.old.session }
    requires here { subtrans_lock_of (start_of hall.now) id ≡ subtrans_lock bank }
    requires wanted { IsIdOf (start_of hall.now) (view caller.old.pass).seen id }
    ensures section { BankSection (start_of hall.now) (subtrans_lock bank)
        (by_at caller.old.number caller.old.session.levels.commands)
        (IsSubtransCut (start_of hall.now) (view caller.new.pass).seen bank (word_page_of id))
        (kinds.Zero (subtrans_page id)) (view caller.old.pass) (view caller.new.pass) result }
    ensures own { IsOf hall.now caller.new.pass }
    ensures ready { IsReady (start_of hall.now) (view caller.new.pass) caller.new.number caller.new.session }
    ensures went { WentOn caller.old.number [] (view caller.old.pass).seen (view caller.new.pass).seen }
    ensures made { OnOk result
        (Stands (view caller.new.pass).seen (subtrans_lock bank) (kinds.Zero (subtrans_page id))) }
    ensures fault { result ≡ Err DiskFault → MetFault (view caller.new.pass).seen (subtrans_lock bank)
        (by_at caller.old.number caller.old.session.levels.commands) }
    ensures uncut { AreFewIds (view caller.new.pass).seen
        → oldest_xmin (start_of hall.now).base.next (history (view caller.new.pass).seen) ≤ id
        → (cutoff : ℕ) → result ≡ Err (Cut cutoff) → ⊥ }
    ensures same { (caller.new.session ≡ caller.old.session) × (caller.new.number ≡ caller.old.number) }
{
    let mut held = enter_subtrans(rt, hall, caller, bank);
    let store = &mut *held;
    let lock = 4 + 4 * bank;
    let by = command_of(caller);
    match store.zero(subtrans_page(id.low())) {
        Ok(()) => {
            let entry = zeroed_note(by, subtrans_page_in_full(id));
            leave_quiet(hall, caller, lock, Part::Subtrans(held), entry);
            Ok(())
        }
        Err(refusal) => {
            let fault = fault_note(by, &*store);
            leave_refused(hall, caller, lock, Part::Subtrans(held), refusal, fault);
            Err(refusal)
        }
    }
}

fn linked_note(by: By, id: FullXid, parent: FullXid) -> Note<Entry>
    ensures { result.value ≡ record { by = by; kind = kinds.Set (changes.Parent by id parent ∷ []) } }
{
    Note::by(&(by, id, parent))
}

/// Records the parent of `id`, which the session was given below it (`SubTransSetParent` of `subtrans.c`). The page of
/// an open id isn't cut, in a life of few ids.
pub fn link_parent<R: Passing, L: LogDisk, P: PageDisk>(
    rt: &R,
    hall: &Hall<EngineLaw<L, P>>,
    caller: &mut Caller<L, P>,
    bank: u32,
    id: FullXid,
    parent: FullXid,
) -> Result<(), BankRefusal>
    requires own { IsOf hall.now caller.old.pass }
    requires laid { hall.now.cells ≡ 3 + 4 * (start_of hall.now).banks }
    requires bank { (bank < (start_of hall.now).banks) × ((start_of hall.now).banks ≤ 16) }
    requires ready { IsReady (start_of hall.now) (view caller.old.pass) caller.old.number caller.old.session }
    requires here { subtrans_lock_of (start_of hall.now) id ≡ subtrans_lock bank }
    requires below { IsGivenBelow (view caller.old.pass).seen caller.old.number parent id }
    ensures section { BankSection (start_of hall.now) (subtrans_lock bank)
        (by_at caller.old.number caller.old.session.levels.commands)
        (IsSubtransCut (start_of hall.now) (view caller.new.pass).seen bank (word_page_of id))
        (kinds.Set (changes.Parent (by_at caller.old.number caller.old.session.levels.commands) id parent ∷ []))
        (view caller.old.pass) (view caller.new.pass) result }
    ensures own { IsOf hall.now caller.new.pass }
    ensures ready { IsReady (start_of hall.now) (view caller.new.pass) caller.new.number caller.new.session }
    ensures went { WentOn caller.old.number [] (view caller.old.pass).seen (view caller.new.pass).seen }
    ensures linked { OnOk result (IsLinked (start_of hall.now) (view caller.new.pass).seen id parent) }
    ensures fault { result ≡ Err DiskFault → MetFault (view caller.new.pass).seen (subtrans_lock bank)
        (by_at caller.old.number caller.old.session.levels.commands) }
    ensures uncut { Contains caller.old.session.levels.open_ids.items id
        → AreFewIds (view caller.new.pass).seen → (cutoff : ℕ) → result ≡ Err (Cut cutoff) → ⊥ }
    ensures same { (caller.new.session ≡ caller.old.session) × (caller.new.number ≡ caller.old.number) }
{
    let mut held = enter_subtrans(rt, hall, caller, bank);
    let store = &mut *held;
    let lock = 4 + 4 * bank;
    let by = command_of(caller);
    match set_parent(&mut *store, id.low(), parent.low()) {
        Ok(()) => {
            let entry = linked_note(by, id, parent);
            leave_quiet(hall, caller, lock, Part::Subtrans(held), entry);
            Ok(())
        }
        Err(refusal) => {
            let fault = fault_note(by, &*store);
            leave_refused(hall, caller, lock, Part::Subtrans(held), refusal, fault);
            Err(refusal)
        }
    }
}

/// The id that a stored parent means, near its child's.
fn parent_near(x: FullXid, found: Option<Xid>) -> Option<FullXid>
    requires from { 3 ≤ x }
    requires to { x < 2 ^ 63 }
    ensures { IsParentNear x found result }
{
    let Some(p) = found else {
        return None;
    };
    if p.number < 3 {
        return None;
    }
    near(x, p)
}

/// The parent of an id below 2^63 and not special, as its bank has it (`SubTransGetParent` of `subtrans.c`); None where
/// none was set.
pub fn read_parent<R: Passing, L: LogDisk, P: PageDisk>(
    rt: &R,
    hall: &Hall<EngineLaw<L, P>>,
    caller: &mut Caller<L, P>,
    bank: u32,
    x: FullXid,
) -> Result<Option<FullXid>, BankRefusal>
    requires own { IsOf hall.now caller.old.pass }
    requires laid { hall.now.cells ≡ 3 + 4 * (start_of hall.now).banks }
    requires bank { (bank < (start_of hall.now).banks) × ((start_of hall.now).banks ≤ 16) }
    requires ready { IsReady (start_of hall.now) (view caller.old.pass) caller.old.number caller.old.session }
    requires here { subtrans_lock_of (start_of hall.now) x ≡ subtrans_lock bank }
    requires from { 3 ≤ x }
    requires to { x < 2 ^ 63 }
    ensures section { BankSection (start_of hall.now) (subtrans_lock bank)
        (by_at caller.old.number caller.old.session.levels.commands)
        (IsSubtransCut (start_of hall.now) (view caller.new.pass).seen bank (word_page_of x))
        kinds.Look (view caller.old.pass) (view caller.new.pass) result }
    ensures own { IsOf hall.now caller.new.pass }
    ensures ready { IsReady (start_of hall.now) (view caller.new.pass) caller.new.number caller.new.session }
    ensures went { WentOn caller.old.number [] (view caller.old.pass).seen (view caller.new.pass).seen }
    ensures parent { IsTrue P.tells
        → IfOk result (λ parent. IsParentRead (start_of hall.now) (view caller.new.pass).seen x parent) }
    ensures fault { result ≡ Err DiskFault → MetFault (view caller.new.pass).seen (subtrans_lock bank)
        (by_at caller.old.number caller.old.session.levels.commands) }
    ensures same { (caller.new.session ≡ caller.old.session) × (caller.new.number ≡ caller.old.number) }
{
    let mut held = enter_subtrans(rt, hall, caller, bank);
    let store = &mut *held;
    let lock = 4 + 4 * bank;
    let by = command_of(caller);
    match stored_parent(&mut *store, x.low()) {
        Ok(found) => {
            leave_looked(hall, caller, lock, Part::Subtrans(held));
            Ok(parent_near(x, found))
        }
        Err(refusal) => {
            let fault = fault_note(by, &*store);
            leave_refused(hall, caller, lock, Part::Subtrans(held), refusal, fault);
            Err(refusal)
        }
    }
}
