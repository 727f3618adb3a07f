//! An abort: its record, the states of its ids, page by page, and the end.
ghost use Rattle.std.specs.Prelude.{◌≡◌, ◌+◌, ◌*◌, ◌<◌, ◌≤◌, [], false, IfOk, length};
ghost use Rattle.hall.specs.Calls.{view, IsOf, start_of};
ghost use Rattle.tx_model.specs.declared.command.Command.TheVariants as commands;
ghost use Rattle.engine_parts.specs.declared.session.Stage.TheVariants as stages;
ghost use Rattle.engine_parts.specs.Adding.{Adds, IsAbortOf, IsOfAbort, IsRecordBy, IsToldBy, MayAdd, MayFault};
ghost use Rattle.engine_parts.specs.Calls.{MayStep};
ghost use Rattle.engine_parts.specs.Sessions.{MayCall, by_at, stance_of};
ghost use Rattle.engine_parts.specs.Stages.{may_be_aborted, may_be_recorded};
ghost use Rattle.engine_parts.specs.Steps.{GoesOn};
ghost use Rattle.xact_ends.specs.Aborts.{Aborts, IsOnePage, SetsAborted};

use crate::committing::id_list;
use crate::logging::log_abort_record;
use bank_sections::{set_page, stall};
use disk_core::{LogDisk, PageDisk};
use engine_parts::{Caller, EngineLaw, Passing, Stage};
use hall::Hall;
use proc_sections::end_transaction;
use slru_bank::{BankRefusal, run_end};
use std::alloc::Global;
use store_pages::{bank_of, xact_page};
use tx_core::State;
use tx_events::{FullXid, Lock, Memory, Rec, Refusal, XactEnd};

/// Sets the open ids from the `first` one to before the `past` one aborted, which lie on one page.
fn set_run<R: Passing, L: LogDisk, P: PageDisk>(
    rt: &R,
    hall: &Hall<EngineLaw<L, P>>,
    caller: &mut Caller<L, P>,
    banks: u32,
    first: usize,
    past: usize,
) -> Result<(), Refusal>
    requires step { MayStep hall.now banks caller.old }
    requires stage { caller.old.session.stage ≡ stages.Aborting }
    requires some { first < past }
    requires among { past ≤ length caller.old.session.levels.open_ids.items }
    requires page { IsOnePage caller.old.session.levels.open_ids.items first past }
    ensures step { MayStep hall.now banks caller.new }
    ensures adds { Adds (by_at caller.old.number caller.old.session.levels.commands) (MayFault result)
        (view caller.old.pass).seen (view caller.new.pass).seen }
    ensures sets { SetsAborted (start_of hall.now) caller.old.number caller.old.session caller.new.session first past
        (view caller.old.pass).seen (view caller.new.pass).seen result }
    ensures number { caller.new.number ≡ caller.old.number }
{
    let id = caller.session.levels.open_ids[first];
    let bank = bank_of(xact_page(id.low()), banks);
    match set_page(rt, hall, caller, bank, first, past, State::Aborted) {
        Ok(()) => Ok(()),
        Err(BankRefusal::DiskFault) => Err(Refusal::DiskFault {
            lock: Lock::Xact(bank),
        }),
        Err(BankRefusal::Cut { .. }) => {
            stall(rt);
            unreachable!()
        }
    }
}

/// Sets all open ids aborted (`TransactionIdSetTreeStatus` of `clog.c`), those of a page at once.
fn set_aborted<R: Passing, L: LogDisk, P: PageDisk>(
    rt: &R,
    hall: &Hall<EngineLaw<L, P>>,
    caller: &mut Caller<L, P>,
    banks: u32,
) -> Result<(), Refusal>
    requires step { MayStep hall.now banks caller.old }
    requires stage { caller.old.session.stage ≡ stages.Aborting }
    ensures step { MayStep hall.now banks caller.new }
    ensures adds { Adds (by_at caller.old.number caller.old.session.levels.commands) (MayFault result)
        (view caller.old.pass).seen (view caller.new.pass).seen }
    ensures sets { SetsAborted (start_of hall.now) caller.old.number caller.old.session caller.new.session
        0 (length caller.old.session.levels.open_ids.items) (view caller.old.pass).seen (view caller.new.pass).seen
        result }
    ensures number { caller.new.number ≡ caller.old.number }
{
    let mut first = 0;
    while first < caller.session.levels.open_ids.len() {
        let past = run_end(&caller.session.levels.open_ids, first);
        match set_run(rt, hall, caller, banks, first, past) {
            Ok(()) => first = past,
            Err(refusal) => return Err(refusal),
        }
    }
    Ok(())
}

/// The abort record of these open ids.
fn record_of(alloc: Global, opened: &[FullXid]) -> Result<Rec, Memory>
    requires { 1 ≤ length opened.now }
    ensures { IfOk result (λ rec. IsAbortOf opened.now rec) }
{
    let top = opened[0];
    let subs = id_list(alloc, &opened[1..])?;
    Ok(Rec::Abort { top, subs })
}

/// From here on the session's abort is pending. Its record is appended, where there is memory for it and the log takes
/// it: an abort goes on without one.
fn log_abort<R: Passing, L: LogDisk, P: PageDisk>(
    rt: &R,
    hall: &Hall<EngineLaw<L, P>>,
    caller: &mut Caller<L, P>,
    alloc: Global,
)
    requires own { IsOf hall.now caller.old.pass }
    requires laid { hall.now.cells ≡ 3 + 4 * (start_of hall.now).banks }
    requires may { MayCall (start_of hall.now) (view caller.old.pass) caller.old.number caller.old.session }
    requires unrecorded { may_be_recorded caller.old.session.stage ≡ false }
    requires unaborted { may_be_aborted caller.old.session.stage ≡ false }
    requires some { 1 ≤ length caller.old.session.levels.open_ids.items }
    ensures own { IsOf hall.now caller.new.pass }
    ensures may { MayCall (start_of hall.now) (view caller.new.pass) caller.new.number caller.new.session }
    ensures adds { Adds (by_at caller.old.number caller.old.session.levels.commands)
        (MayAdd (IsOfAbort caller.old.session.levels.open_ids.items) ⊥ (λ _. ⊥))
        (view caller.old.pass).seen (view caller.new.pass).seen }
    ensures goes { GoesOn caller.old.number [] (view caller.old.pass).seen (view caller.new.pass).seen }
    ensures session { caller.new.session ≡ record caller.old.session { stage = stages.Aborting } }
    ensures number { caller.new.number ≡ caller.old.number }
{
    match record_of(alloc, &caller.session.levels.open_ids) {
        Ok(rec) => {
            let _appended = log_abort_record(rt, hall, caller, &rec);
            caller.session.stage = Stage::Aborting;
            return;
        }
        Err(Memory) => {
            caller.session.stage = Stage::Aborting;
            return;
        }
    }
}

/// Begins the abort where none was begun.
fn start_abort<R: Passing, L: LogDisk, P: PageDisk>(
    rt: &R,
    hall: &Hall<EngineLaw<L, P>>,
    caller: &mut Caller<L, P>,
    alloc: Global,
)
    requires own { IsOf hall.now caller.old.pass }
    requires laid { hall.now.cells ≡ 3 + 4 * (start_of hall.now).banks }
    requires may { MayCall (start_of hall.now) (view caller.old.pass) caller.old.number caller.old.session }
    requires stage { may_be_recorded caller.old.session.stage ≡ false }
    requires some { 1 ≤ length caller.old.session.levels.open_ids.items }
    ensures own { IsOf hall.now caller.new.pass }
    ensures may { MayCall (start_of hall.now) (view caller.new.pass) caller.new.number caller.new.session }
    ensures adds { Adds (by_at caller.old.number caller.old.session.levels.commands)
        (MayAdd (IsRecordBy commands.Abort (stance_of caller.old.session) caller.old.session.stage
        caller.old.session.levels.open_ids.items) ⊥ (λ _. ⊥))
        (view caller.old.pass).seen (view caller.new.pass).seen }
    ensures goes { GoesOn caller.old.number [] (view caller.old.pass).seen (view caller.new.pass).seen }
    ensures session { caller.new.session ≡ record caller.old.session { stage = stages.Aborting } }
    ensures number { caller.new.number ≡ caller.old.number }
{
    if let Stage::Aborting = caller.session.stage {
        return;
    }
    log_abort(rt, hall, caller, alloc);
}

/// Aborts a transaction that has an id.
pub(crate) fn abort_named<R: Passing, L: LogDisk, P: PageDisk>(
    rt: &R,
    hall: &Hall<EngineLaw<L, P>>,
    caller: &mut Caller<L, P>,
    banks: u32,
    alloc: Global,
) -> Result<(), Refusal>
    requires step { MayStep hall.now banks caller.old }
    requires stage { may_be_recorded caller.old.session.stage ≡ false }
    requires some { 1 ≤ length caller.old.session.levels.open_ids.items }
    ensures step { MayStep hall.now banks caller.new }
    ensures adds { Adds (by_at caller.old.number caller.old.session.levels.commands)
        (MayAdd (IsRecordBy commands.Abort (stance_of caller.old.session) caller.old.session.stage
        caller.old.session.levels.open_ids.items) ⊥ (IsToldBy result))
        (view caller.old.pass).seen (view caller.new.pass).seen }
    ensures aborts { Aborts caller.old.number caller.old.session caller.new.session
        (view caller.old.pass).seen (view caller.new.pass).seen result }
    ensures number { caller.new.number ≡ caller.old.number }
{
    start_abort(rt, hall, caller, alloc);
    match set_aborted(rt, hall, caller, banks) {
        Ok(()) => {
            end_transaction(rt, hall, caller, XactEnd::Abort);
            Ok(())
        }
        Err(refusal) => Err(refusal),
    }
}
