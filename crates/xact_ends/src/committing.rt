//! A commit, from each stage to its end.
ghost use Rattle.std.specs.Prelude.{◌≡◌, ◌≤◌, None, IfErr, IfOk, length};
ghost use Rattle.hall.specs.Calls.{view, start_of};
ghost use Rattle.engine_parts.specs.declared.session.Stage.TheVariants as stages;
ghost use Rattle.engine_parts.specs.Adding.{Adds, IsCommitOf, IsOfCommit, IsToldBy, MayAdd, MayFault};
ghost use Rattle.engine_parts.specs.Calls.{MayStep};
ghost use Rattle.engine_parts.specs.Sessions.{by_at};
ghost use Rattle.log_sections.specs.Rooms.{MetFullFor};
ghost use Rattle.xact_ends.specs.Ends.{Commits};

use crate::logging::log_commit_record;
use crate::settling::set_tree;
use bank_sections::record_parent;
use disk_core::{LogDisk, PageDisk};
use engine_parts::{Caller, EngineLaw, Passing, Stage};
use hall::Hall;
use log_sections::{Appended, flush_log};
use proc_sections::end_transaction;
use std::alloc::Global;
use tx_events::{FullXid, IdList, Memory, Rec, Refusal, XactEnd};

/// Sets the states from a step on, and ends the transaction.
pub(crate) fn finish<R: Passing, L: LogDisk, P: PageDisk>(
    rt: &R,
    hall: &Hall<EngineLaw<L, P>>,
    caller: &mut Caller<L, P>,
    banks: u32,
    from: u64,
) -> Result<(), Refusal>
    requires step { MayStep hall.now banks caller.old }
    requires stage { caller.old.session.stage ≡ stages.Settling from }
    ensures step { MayStep hall.now banks caller.new }
    ensures adds { Adds (by_at caller.old.number caller.old.session.levels.commands) (MayFault result)
        (view caller.old.pass).seen (view caller.new.pass).seen }
    ensures commits { Commits (start_of hall.now) caller.old.number caller.old.session caller.new.session
        (view caller.old.pass).seen (view caller.new.pass).seen result }
    ensures number { caller.new.number ≡ caller.old.number }
{
    match set_tree(rt, hall, caller, banks, from) {
        Ok(()) => {
            end_transaction(rt, hall, caller, XactEnd::Commit);
            Ok(())
        }
        Err(refusal) => Err(refusal),
    }
}

/// Puts the record of this number on disk, and goes on.
pub(crate) fn flush_and_finish<R: Passing, L: LogDisk, P: PageDisk>(
    rt: &R,
    hall: &Hall<EngineLaw<L, P>>,
    caller: &mut Caller<L, P>,
    banks: u32,
    number: u64,
) -> Result<(), Refusal>
    requires step { MayStep hall.now banks caller.old }
    requires stage { caller.old.session.stage ≡ stages.Logged number }
    ensures step { MayStep hall.now banks caller.new }
    ensures adds { Adds (by_at caller.old.number caller.old.session.levels.commands)
        (MayAdd (λ _. ⊥) (Unit {0}) (IsToldBy result))
        (view caller.old.pass).seen (view caller.new.pass).seen }
    ensures commits { Commits (start_of hall.now) caller.old.number caller.old.session caller.new.session
        (view caller.old.pass).seen (view caller.new.pass).seen result }
    ensures number { caller.new.number ≡ caller.old.number }
{
    match flush_log(rt, hall, caller, number) {
        Ok(()) => {
            caller.session.stage = Stage::Settling { steps: 0 };
            finish(rt, hall, caller, banks, 0)
        }
        Err(refusal) => Err(refusal),
    }
}

/// These ids in a list of their own.
pub(crate) fn id_list(alloc: Global, ids: &[FullXid]) -> Result<IdList, Memory>
    ensures { IfOk result (λ list. list ≡ ids.now) }
{
    Ok(IdList::of(Vec::from_slice(alloc, ids)?))
}

/// The commit record of these open ids.
fn record_of(alloc: Global, opened: &[FullXid]) -> Result<Rec, Memory>
    requires { 1 ≤ length opened.now }
    ensures { IfOk result (λ rec. IsCommitOf opened.now rec) }
{
    let top = opened[0];
    let subs = id_list(alloc, &opened[1..])?;
    Ok(Rec::Commit { top, subs })
}

/// Appends the record, and goes on.
fn log_and_finish<R: Passing, L: LogDisk, P: PageDisk>(
    rt: &R,
    hall: &Hall<EngineLaw<L, P>>,
    caller: &mut Caller<L, P>,
    banks: u32,
    alloc: Global,
) -> Result<(), Refusal>
    requires step { MayStep hall.now banks caller.old }
    requires stage { caller.old.session.stage ≡ stages.Clear }
    requires linked { caller.old.session.unlinked ≡ None }
    requires some { 1 ≤ length caller.old.session.levels.open_ids.items }
    ensures step { MayStep hall.now banks caller.new }
    ensures adds { Adds (by_at caller.old.number caller.old.session.levels.commands)
        (MayAdd (IsOfCommit caller.old.session.levels.open_ids.items) (Unit {0}) (IsToldBy result))
        (view caller.old.pass).seen (view caller.new.pass).seen }
    ensures commits { Commits (start_of hall.now) caller.old.number caller.old.session caller.new.session
        (view caller.old.pass).seen (view caller.new.pass).seen result }
    ensures number { caller.new.number ≡ caller.old.number }
    ensures full { IfErr result (MetFullFor (start_of hall.now) (view caller.new.pass).seen
        (by_at caller.old.number caller.old.session.levels.commands)
        (IsCommitOf caller.old.session.levels.open_ids.items)) }
{
    let rec = match record_of(alloc, &caller.session.levels.open_ids) {
        Ok(rec) => rec,
        Err(Memory) => return Err(Refusal::Memory),
    };
    match log_commit_record(rt, hall, caller, &rec) {
        Ok(appended) => match appended {
            Appended::At { number } => flush_and_finish(rt, hall, caller, banks, number),
            Appended::NoBase => unreachable!(),
        },
        Err(refusal) => Err(refusal),
    }
}

/// Commits a transaction of which no end was begun and that has an id.
pub(crate) fn start_commit<R: Passing, L: LogDisk, P: PageDisk>(
    rt: &R,
    hall: &Hall<EngineLaw<L, P>>,
    caller: &mut Caller<L, P>,
    banks: u32,
    alloc: Global,
) -> Result<(), Refusal>
    requires step { MayStep hall.now banks caller.old }
    requires stage { caller.old.session.stage ≡ stages.Clear }
    requires some { 1 ≤ length caller.old.session.levels.open_ids.items }
    ensures step { MayStep hall.now banks caller.new }
    ensures adds { Adds (by_at caller.old.number caller.old.session.levels.commands)
        (MayAdd (IsOfCommit caller.old.session.levels.open_ids.items) (Unit {0}) (IsToldBy result))
        (view caller.old.pass).seen (view caller.new.pass).seen }
    ensures commits { Commits (start_of hall.now) caller.old.number caller.old.session caller.new.session
        (view caller.old.pass).seen (view caller.new.pass).seen result }
    ensures number { caller.new.number ≡ caller.old.number }
    ensures full { IfErr result (MetFullFor (start_of hall.now) (view caller.new.pass).seen
        (by_at caller.old.number caller.old.session.levels.commands)
        (IsCommitOf caller.old.session.levels.open_ids.items)) }
{
    match record_parent(rt, hall, caller, banks) {
        Ok(()) => log_and_finish(rt, hall, caller, banks, alloc),
        Err(refusal) => Err(refusal),
    }
}
