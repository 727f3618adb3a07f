//! The record of a commit or an abort comes to the log, behind a truncation's where the log can't take it yet.
ghost use Rattle.std.specs.Prelude.{◌≡◌, ◌+◌, ◌*◌, [], false, IfErr, None, OnOk};
ghost use Rattle.hall.specs.Calls.{view, IsOf, start_of};
ghost use Rattle.engine_parts.specs.declared.session.Stage.TheVariants as stages;
ghost use Rattle.engine_parts.specs.Adding.{Adds, IsOfAbort, IsOfCommit, IsTruncation, MayAdd};
ghost use Rattle.engine_parts.specs.Sessions.{MayCall, by_at};
ghost use Rattle.engine_parts.specs.Stages.{may_be_aborted, may_be_recorded};
ghost use Rattle.engine_parts.specs.Steps.{WentOn};
ghost use Rattle.log_sections.specs.LogSections.{Appends, IsAbortOf, IsAppendRefused, IsCommitOf, TakesAbort};
ghost use Rattle.log_sections.specs.Rooms.{FoundNoBase, MetFull, MetFullFor};
ghost use Rattle.log_takes.specs.Takes.{IsOldestTold};
ghost use Rattle.xact_ends.specs.Logged.{IsNumbered};

use disk_core::{LogDisk, PageDisk};
use engine_parts::{Caller, EngineLaw, Passing};
use hall::Hall;
use log_sections::{Appended, append_abort, append_commit, append_truncation};
use proc_sections::read_truncation;
use tx_events::{Rec, Refusal};

/// Appends the record of a truncation to the announced oldest id, which the log's records may not tell yet. The log can
/// take it. Answers the record's number.
fn log_truncation<R: Passing, L: LogDisk, P: PageDisk>(
    rt: &R,
    hall: &Hall<EngineLaw<L, P>>,
    caller: &mut Caller<L, P>,
) -> Result<u64, Refusal>
    requires own { IsOf hall.now caller.old.pass }
    requires laid { hall.now.cells ≡ 3 + 4 * (start_of hall.now).banks }
    requires may { MayCall (start_of hall.now) (view caller.old.pass) caller.old.number caller.old.session }
    ensures own { IsOf hall.now caller.new.pass }
    ensures may { MayCall (start_of hall.now) (view caller.new.pass) caller.new.number caller.new.session }
    ensures went { WentOn caller.old.number [] (view caller.old.pass).seen (view caller.new.pass).seen }
    ensures adds { Adds (by_at caller.old.number caller.old.session.levels.commands) (MayAdd IsTruncation ⊥ (λ _. ⊥))
        (view caller.old.pass).seen (view caller.new.pass).seen }
    ensures told { OnOk result (IsOldestTold (start_of hall.now) (view caller.old.pass).seen
        (view caller.new.pass).seen) }
    ensures refused { IfErr result (IsAppendRefused (start_of hall.now) (view caller.new.pass).seen) }
    ensures same { (caller.new.session ≡ caller.old.session) × (caller.new.number ≡ caller.old.number) }
    ensures full { IfErr result (MetFull (start_of hall.now) (view caller.new.pass).seen
        (by_at caller.old.number caller.old.session.levels.commands) IsTruncation) }
{
    let rec = read_truncation(rt, hall, caller);
    append_truncation(rt, hall, caller, &rec)
}

/// Appends the record of a truncation, and then the commit record, which the log couldn't take before.
fn log_commit_behind<R: Passing, L: LogDisk, P: PageDisk>(
    rt: &R,
    hall: &Hall<EngineLaw<L, P>>,
    caller: &mut Caller<L, P>,
    rec: &Rec,
) -> Result<Appended, Refusal>
    requires own { IsOf hall.now caller.old.pass }
    requires laid { hall.now.cells ≡ 3 + 4 * (start_of hall.now).banks }
    requires may { MayCall (start_of hall.now) (view caller.old.pass) caller.old.number caller.old.session }
    requires clear { caller.old.session.stage ≡ stages.Clear }
    requires linked { caller.old.session.unlinked ≡ None }
    requires record { IsCommitOf caller.old.session.levels.open_ids.items rec.now }
    requires no_base { FoundNoBase (start_of hall.now) (view caller.old.pass).seen
        (by_at caller.old.number caller.old.session.levels.commands) rec.now }
    ensures own { IsOf hall.now caller.new.pass }
    ensures may { MayCall (start_of hall.now) (view caller.new.pass) caller.new.number caller.new.session }
    ensures went { WentOn caller.old.number [] (view caller.old.pass).seen (view caller.new.pass).seen }
    ensures adds { Adds (by_at caller.old.number caller.old.session.levels.commands)
        (MayAdd (IsOfCommit caller.old.session.levels.open_ids.items) ⊥ (λ _. ⊥))
        (view caller.old.pass).seen (view caller.new.pass).seen }
    ensures appends { Appends (start_of hall.now) (view caller.new.pass).seen rec.now caller.old.session
        caller.new.session result }
    ensures numbered { IsNumbered result }
    ensures number { caller.new.number ≡ caller.old.number }
    ensures full { IfErr result (MetFullFor (start_of hall.now) (view caller.new.pass).seen
        (by_at caller.old.number caller.old.session.levels.commands)
        (IsCommitOf caller.old.session.levels.open_ids.items)) }
{
    match log_truncation(rt, hall, caller) {
        Ok(_) => append_commit(rt, hall, caller, rec),
        Err(refusal) => Err(refusal),
    }
}

/// Appends the commit record of what the session has open. Where the counters behind it would be no base, since the
/// oldest id that the log's records tell is too far behind, a truncation's record comes first. That one stays also where
/// the log then refuses the commit record.
///
/// Refused with `LogDown`, or where the log isn't down with `Full` or `Memory`; then the commit record wasn't appended.
pub(crate) fn log_commit_record<R: Passing, L: LogDisk, P: PageDisk>(
    rt: &R,
    hall: &Hall<EngineLaw<L, P>>,
    caller: &mut Caller<L, P>,
    rec: &Rec,
) -> Result<Appended, Refusal>
    requires own { IsOf hall.now caller.old.pass }
    requires laid { hall.now.cells ≡ 3 + 4 * (start_of hall.now).banks }
    requires may { MayCall (start_of hall.now) (view caller.old.pass) caller.old.number caller.old.session }
    requires clear { caller.old.session.stage ≡ stages.Clear }
    requires linked { caller.old.session.unlinked ≡ None }
    requires record { IsCommitOf caller.old.session.levels.open_ids.items rec.now }
    ensures own { IsOf hall.now caller.new.pass }
    ensures may { MayCall (start_of hall.now) (view caller.new.pass) caller.new.number caller.new.session }
    ensures went { WentOn caller.old.number [] (view caller.old.pass).seen (view caller.new.pass).seen }
    ensures adds { Adds (by_at caller.old.number caller.old.session.levels.commands)
        (MayAdd (IsOfCommit caller.old.session.levels.open_ids.items) ⊥ (λ _. ⊥))
        (view caller.old.pass).seen (view caller.new.pass).seen }
    ensures appends { Appends (start_of hall.now) (view caller.new.pass).seen rec.now caller.old.session
        caller.new.session result }
    ensures numbered { IsNumbered result }
    ensures number { caller.new.number ≡ caller.old.number }
    ensures full { IfErr result (MetFullFor (start_of hall.now) (view caller.new.pass).seen
        (by_at caller.old.number caller.old.session.levels.commands)
        (IsCommitOf caller.old.session.levels.open_ids.items)) }
{
    match append_commit(rt, hall, caller, rec) {
        Ok(appended) => match appended {
            Appended::At { number } => Ok(Appended::At { number }),
            Appended::NoBase => log_commit_behind(rt, hall, caller, rec),
        },
        Err(refusal) => Err(refusal),
    }
}

/// Appends the record of a truncation, and then the abort record.
fn log_abort_behind<R: Passing, L: LogDisk, P: PageDisk>(
    rt: &R,
    hall: &Hall<EngineLaw<L, P>>,
    caller: &mut Caller<L, P>,
    rec: &Rec,
) -> Result<Appended, Refusal>
    requires own { IsOf hall.now caller.old.pass }
    requires laid { hall.now.cells ≡ 3 + 4 * (start_of hall.now).banks }
    requires may { MayCall (start_of hall.now) (view caller.old.pass) caller.old.number caller.old.session }
    requires unrecorded { may_be_recorded caller.old.session.stage ≡ false }
    requires unaborted { may_be_aborted caller.old.session.stage ≡ false }
    requires record { IsAbortOf caller.old.session.levels.open_ids.items rec.now }
    ensures own { IsOf hall.now caller.new.pass }
    ensures may { MayCall (start_of hall.now) (view caller.new.pass) caller.new.number caller.new.session }
    ensures went { WentOn caller.old.number [] (view caller.old.pass).seen (view caller.new.pass).seen }
    ensures adds { Adds (by_at caller.old.number caller.old.session.levels.commands)
        (MayAdd (IsOfAbort caller.old.session.levels.open_ids.items) ⊥ (λ _. ⊥))
        (view caller.old.pass).seen (view caller.new.pass).seen }
    ensures takes { TakesAbort (start_of hall.now) (view caller.new.pass).seen rec.now caller.old.session
        caller.new.session result }
    ensures numbered { IsNumbered result }
    ensures number { caller.new.number ≡ caller.old.number }
{
    match log_truncation(rt, hall, caller) {
        Ok(_) => append_abort(rt, hall, caller, rec),
        Err(refusal) => Err(refusal),
    }
}

/// Appends the abort record of what the session has open. Where the counters behind it would be no base, since the
/// oldest id that the log's records tell is too far behind, a truncation's record comes first. That one stays also where
/// the log then refuses the abort record.
///
/// Refused with `LogDown`, or where the log isn't down with `Full` or `Memory`; then the abort record wasn't appended.
pub(crate) fn log_abort_record<R: Passing, L: LogDisk, P: PageDisk>(
    rt: &R,
    hall: &Hall<EngineLaw<L, P>>,
    caller: &mut Caller<L, P>,
    rec: &Rec,
) -> Result<Appended, Refusal>
    requires own { IsOf hall.now caller.old.pass }
    requires laid { hall.now.cells ≡ 3 + 4 * (start_of hall.now).banks }
    requires may { MayCall (start_of hall.now) (view caller.old.pass) caller.old.number caller.old.session }
    requires unrecorded { may_be_recorded caller.old.session.stage ≡ false }
    requires unaborted { may_be_aborted caller.old.session.stage ≡ false }
    requires record { IsAbortOf caller.old.session.levels.open_ids.items rec.now }
    ensures own { IsOf hall.now caller.new.pass }
    ensures may { MayCall (start_of hall.now) (view caller.new.pass) caller.new.number caller.new.session }
    ensures went { WentOn caller.old.number [] (view caller.old.pass).seen (view caller.new.pass).seen }
    ensures adds { Adds (by_at caller.old.number caller.old.session.levels.commands)
        (MayAdd (IsOfAbort caller.old.session.levels.open_ids.items) ⊥ (λ _. ⊥))
        (view caller.old.pass).seen (view caller.new.pass).seen }
    ensures takes { TakesAbort (start_of hall.now) (view caller.new.pass).seen rec.now caller.old.session
        caller.new.session result }
    ensures numbered { IsNumbered result }
    ensures number { caller.new.number ≡ caller.old.number }
{
    match append_abort(rt, hall, caller, rec) {
        Ok(appended) => match appended {
            Appended::At { number } => Ok(Appended::At { number }),
            Appended::NoBase => log_abort_behind(rt, hall, caller, rec),
        },
        Err(refusal) => Err(refusal),
    }
}
