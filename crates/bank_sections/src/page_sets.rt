//! States are set, of ids that share a page.
ghost use Rattle.std.specs.Prelude.{◌≡◌, ℕ, ◌+◌, ◌*◌, ◌<◌, ◌≤◌, [], Contains, Err, OnErr, OnOk, Some, length, slice_index};
ghost use Rattle.std.specs.List.{slice_range};
ghost use Rattle.hall.specs.Calls.{view, IsOf, start_of};
ghost use Rattle.slru_bank.specs.States.{state_number};
ghost use Rattle.slru_bank.specs.declared.refusal.BankRefusal.TheVariants.{Cut, DiskFault};
ghost use Rattle.tx_core.specs.declared.entry.Kind.TheVariants as kinds;
ghost use Rattle.store_pages.specs.Layouts.{xact_page_of};
ghost use Rattle.tx_core.specs.Entries.{AreFewIds, IsMarked};
ghost use Rattle.tx_core.specs.Laws.{all_set};
ghost use Rattle.tx_core.specs.Locks.{xact_lock};
ghost use Rattle.engine_parts.specs.Answers.{MetFault};
ghost use Rattle.engine_parts.specs.Sessions.{IsReady, by_at};
ghost use Rattle.engine_parts.specs.Stages.{AsksNothing};
ghost use Rattle.engine_parts.specs.Stand.{number_of_state};
ghost use Rattle.engine_parts.specs.Steps.{GoesOn};
ghost use Rattle.bank_sections.specs.Sections.{BankSection, IsXactCut};
ghost use Rattle.bank_sections.specs.Sets.{AsksOnly, MaySet};

use crate::refused::leave_refused;
use disk_core::{LogDisk, PageDisk};
use engine_parts::{
    Caller, EngineLaw, Part, Passing, command_of, enter_xact, fault_note, leave_quiet,
};
use hall::{Hall, Note};
use slru_bank::{BankRefusal, set_states};
use tx_core::{Entry, State};
use tx_events::{By, FullXid};

/// The state as the pages name it.
fn stored(state: State) -> slru_bank::State
    ensures { state_number result ≡ number_of_state (Some state) }
{
    match state {
        State::Committed => slru_bank::State::Committed,
        State::Aborted => slru_bank::State::Aborted,
        State::SubCommitted => slru_bank::State::SubCommitted,
    }
}

fn set_note(by: By, ids: &[FullXid], state: State) -> Note<Entry>
    ensures { result.value ≡ record { by = by; kind = kinds.Set (all_set by state ids.now) } }
{
    Note::by(&(by, ids, state))
}

/// Sets the state of the session's open ids from the `first` one to before the `past` one, which share a page of the
/// bank (`TransactionIdSetPageStatus` of `clog.c`). After an error none is set. The page isn't cut, in a life of few
/// ids.
pub fn set_page<R: Passing, L: LogDisk, P: PageDisk>(
    rt: &R,
    hall: &Hall<EngineLaw<L, P>>,
    caller: &mut Caller<L, P>,
    bank: u32,
    first: usize,
    past: usize,
    state: State,
) -> Result<(), BankRefusal>
    requires own { IsOf hall.now caller.old.pass }
    requires laid { hall.now.cells ≡ 3 + 4 * (start_of hall.now).banks }
    requires bank { (bank < (start_of hall.now).banks) × ((start_of hall.now).banks ≤ 16) }
    requires ready { IsReady (start_of hall.now) (view caller.old.pass) caller.old.number caller.old.session }
    requires some { first < past }
    requires among { past ≤ length caller.old.session.levels.open_ids.items }
    requires may { MaySet (start_of hall.now) (view caller.old.pass).seen caller.old.number bank
        (slice_range caller.old.session.levels.open_ids.items first past) state }
    ensures section { BankSection (start_of hall.now) (xact_lock bank)
        (by_at caller.old.number caller.old.session.levels.commands)
        (IsXactCut (start_of hall.now) (view caller.new.pass).seen bank
        (xact_page_of (slice_index (slice_range caller.old.session.levels.open_ids.items first past) 0)))
        (kinds.Set (all_set (by_at caller.old.number caller.old.session.levels.commands) state
        (slice_range caller.old.session.levels.open_ids.items first past)))
        (view caller.old.pass) (view caller.new.pass) result }
    ensures own { IsOf hall.now caller.new.pass }
    ensures ready { IsReady (start_of hall.now) (view caller.new.pass) caller.new.number caller.new.session }
    ensures goes { GoesOn caller.old.number [] (view caller.old.pass).seen (view caller.new.pass).seen }
    ensures asks { AsksOnly caller.old.number (slice_range caller.old.session.levels.open_ids.items first past) state
        (view caller.old.pass).seen (view caller.new.pass).seen }
    ensures unasked { OnErr result
        (AsksNothing caller.old.number (view caller.old.pass).seen (view caller.new.pass).seen) }
    ensures set { OnOk result ((id : ℕ) → Contains (slice_range caller.old.session.levels.open_ids.items first past) id
        → IsMarked (start_of hall.now) (view caller.new.pass).seen id state) }
    ensures fault { result ≡ Err DiskFault → MetFault (view caller.new.pass).seen (xact_lock bank)
        (by_at caller.old.number caller.old.session.levels.commands) }
    ensures uncut { AreFewIds (view caller.new.pass).seen
        → (cutoff : ℕ) → result ≡ Err (Cut cutoff) → ⊥ }
    ensures same { (caller.new.session ≡ caller.old.session) × (caller.new.number ≡ caller.old.number) }
{
    let mut held = enter_xact(rt, hall, caller, bank);
    let store = &mut *held;
    let lock = 3 + 4 * bank;
    let by = command_of(caller);
    let ids = &caller.session.levels.open_ids[first..past];
    match set_states(&mut *store, ids, stored(state)) {
        Ok(()) => {
            let entry = set_note(by, ids, state);
            leave_quiet(hall, caller, lock, Part::Xact(held), entry);
            Ok(())
        }
        Err(refusal) => {
            let fault = fault_note(by, &*store);
            leave_refused(hall, caller, lock, Part::Xact(held), refusal, fault);
            Err(refusal)
        }
    }
}
