//! Pages of pg_xact are made, and states are read.
ghost use Rattle.std.specs.Prelude.{◌≡◌, ℕ, ◌+◌, ◌*◌, ◌<◌, ◌≤◌, [], Err, IfOk, IsTrue, OnOk};
ghost use Rattle.hall.specs.Calls.{view, IsOf, start_of};
ghost use Rattle.slru_bank.specs.States.{state_number};
ghost use Rattle.slru_bank.specs.declared.refusal.BankRefusal.TheVariants.{Cut, DiskFault};
ghost use Rattle.tx_core.specs.declared.entry.Kind.TheVariants as kinds;
ghost use Rattle.store_pages.specs.Layouts.{xact_page_of};
ghost use Rattle.tx_events.specs.Horizon.{oldest_id};
ghost use Rattle.tx_core.specs.Entries.{AreFewIds, Stands, history};
ghost use Rattle.tx_core.specs.Locks.{xact_lock, xact_lock_of, xact_page};
ghost use Rattle.tx_core.specs.PagesBeforeIds.{IsIdOf};
ghost use Rattle.engine_parts.specs.Answers.{MetFault};
ghost use Rattle.engine_parts.specs.Sessions.{IsReady, by_at};
ghost use Rattle.engine_parts.specs.Stand.{number_of_state};
ghost use Rattle.engine_parts.specs.Steps.{WentOn};
ghost use Rattle.bank_sections.specs.Reads.{IsStateRead};
ghost use Rattle.bank_sections.specs.Sections.{BankSection, IsXactCut};

use crate::entries::zeroed_note;
use crate::refused::leave_refused;
use disk_core::{LogDisk, PageDisk};
use engine_parts::{
    Caller, EngineLaw, Part, Passing, command_of, enter_xact, fault_note, leave_looked, leave_quiet,
};
use hall::Hall;
use slru_bank::{BankRefusal, state};
use store_pages::{xact_page, xact_page_in_full};
use tx_core::State;
use tx_events::FullXid;

/// Makes the page of the state of `id`, which was given or comes next, where the bank's last made page is before it
/// (`ExtendCLOG` of `clog.c`). The page of an id that isn't before the announced oldest one isn't cut, in a life of few
/// ids.
pub fn make_page<R: Passing, L: LogDisk, P: PageDisk>(
    rt: &R,
    hall: &Hall<EngineLaw<L, P>>,
    caller: &mut Caller<L, P>,
    bank: u32,
    id: FullXid,
) -> Result<(), BankRefusal>
    requires own { IsOf hall.now caller.old.pass }
    requires laid { hall.now.cells ≡ 3 + 4 * (start_of hall.now).banks }
    requires bank { (bank < (start_of hall.now).banks) × ((start_of hall.now).banks ≤ 16) }
    requires ready { IsReady (start_of hall.now) (view caller.old.pass) caller.old.number caller.old.session }
    requires here { xact_lock_of (start_of hall.now) id ≡ xact_lock bank }
    requires wanted { IsIdOf (start_of hall.now) (view caller.old.pass).seen id }
    ensures section { BankSection (start_of hall.now) (xact_lock bank)
        (by_at caller.old.number caller.old.session.levels.commands)
        (IsXactCut (start_of hall.now) (view caller.new.pass).seen bank (xact_page_of id))
        (kinds.Zero (xact_page id)) (view caller.old.pass) (view caller.new.pass) result }
    ensures own { IsOf hall.now caller.new.pass }
    ensures ready { IsReady (start_of hall.now) (view caller.new.pass) caller.new.number caller.new.session }
    ensures went { WentOn caller.old.number [] (view caller.old.pass).seen (view caller.new.pass).seen }
    ensures made { OnOk result (Stands (view caller.new.pass).seen (xact_lock bank) (kinds.Zero (xact_page id))) }
    ensures fault { result ≡ Err DiskFault → MetFault (view caller.new.pass).seen (xact_lock bank)
        (by_at caller.old.number caller.old.session.levels.commands) }
    ensures uncut { AreFewIds (view caller.new.pass).seen
        → oldest_id (start_of hall.now).base.oldest (history (view caller.new.pass).seen) ≤ id
        → (cutoff : ℕ) → result ≡ Err (Cut cutoff) → ⊥ }
    ensures same { (caller.new.session ≡ caller.old.session) × (caller.new.number ≡ caller.old.number) }
{
    let mut held = enter_xact(rt, hall, caller, bank);
    let store = &mut *held;
    let lock = 3 + 4 * bank;
    let by = command_of(caller);
    match store.zero(xact_page(id.low())) {
        Ok(()) => {
            let entry = zeroed_note(by, xact_page_in_full(id));
            leave_quiet(hall, caller, lock, Part::Xact(held), entry);
            Ok(())
        }
        Err(refusal) => {
            let fault = fault_note(by, &*store);
            leave_refused(hall, caller, lock, Part::Xact(held), refusal, fault);
            Err(refusal)
        }
    }
}

/// The state as the entries name it.
fn named(state: slru_bank::State) -> Option<State>
    ensures { number_of_state result ≡ state_number state }
{
    match state {
        slru_bank::State::InProgress => None,
        slru_bank::State::Committed => Some(State::Committed),
        slru_bank::State::Aborted => Some(State::Aborted),
        slru_bank::State::SubCommitted => Some(State::SubCommitted),
    }
}

/// The state of an id, as its bank has it (`TransactionIdGetStatus` of `clog.c`); None where none was set.
pub fn read_state<R: Passing, L: LogDisk, P: PageDisk>(
    rt: &R,
    hall: &Hall<EngineLaw<L, P>>,
    caller: &mut Caller<L, P>,
    bank: u32,
    x: FullXid,
) -> Result<Option<State>, BankRefusal>
    requires own { IsOf hall.now caller.old.pass }
    requires laid { hall.now.cells ≡ 3 + 4 * (start_of hall.now).banks }
    requires bank { (bank < (start_of hall.now).banks) × ((start_of hall.now).banks ≤ 16) }
    requires ready { IsReady (start_of hall.now) (view caller.old.pass) caller.old.number caller.old.session }
    requires here { xact_lock_of (start_of hall.now) x ≡ xact_lock bank }
    ensures section { BankSection (start_of hall.now) (xact_lock bank)
        (by_at caller.old.number caller.old.session.levels.commands)
        (IsXactCut (start_of hall.now) (view caller.new.pass).seen bank (xact_page_of x))
        kinds.Look (view caller.old.pass) (view caller.new.pass) result }
    ensures own { IsOf hall.now caller.new.pass }
    ensures ready { IsReady (start_of hall.now) (view caller.new.pass) caller.new.number caller.new.session }
    ensures went { WentOn caller.old.number [] (view caller.old.pass).seen (view caller.new.pass).seen }
    ensures state { IsTrue P.tells
        → IfOk result (λ state. IsStateRead (start_of hall.now) (view caller.new.pass).seen x state) }
    ensures fault { result ≡ Err DiskFault → MetFault (view caller.new.pass).seen (xact_lock bank)
        (by_at caller.old.number caller.old.session.levels.commands) }
    ensures same { (caller.new.session ≡ caller.old.session) × (caller.new.number ≡ caller.old.number) }
{
    let mut held = enter_xact(rt, hall, caller, bank);
    let store = &mut *held;
    let lock = 3 + 4 * bank;
    let by = command_of(caller);
    match state(&mut *store, x.low()) {
        Ok(found) => {
            leave_looked(hall, caller, lock, Part::Xact(held));
            Ok(named(found))
        }
        Err(refusal) => {
            let fault = fault_note(by, &*store);
            leave_refused(hall, caller, lock, Part::Xact(held), refusal, fault);
            Err(refusal)
        }
    }
}
