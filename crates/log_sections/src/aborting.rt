//! The abort record is appended.
ghost use Rattle.std.specs.Prelude.{◌≡◌, ℕ, ◌+◌, ◌*◌, ◌++◌, ◌∷◌, [], IfOk, false};
ghost use Rattle.hall.specs.declared.view.Stage.TheVariants.{Inside};
ghost use Rattle.hall.specs.Calls.{view, IsOf, start_of};
ghost use Rattle.notes.specs.Lists.{at};
ghost use Rattle.tx_core.specs.declared.entry.Kind.TheVariants as kinds;
ghost use Rattle.tx_core.specs.Laws.{StaysBase};
ghost use Rattle.tx_core.specs.Locks.{log_lock};
ghost use Rattle.tx_core.specs.StaysDown.{IsUp};
ghost use Rattle.engine_parts.specs.declared.session.Stage.TheVariants as stages;
ghost use Rattle.engine_parts.specs.Holds.{Leaves};
ghost use Rattle.engine_parts.specs.Parts.{IsLogOf};
ghost use Rattle.engine_parts.specs.Sessions.{IsAt, IsReady, MayCall, by_at};
ghost use Rattle.engine_parts.specs.Stages.{may_be_aborted, may_be_recorded};
ghost use Rattle.engine_parts.specs.Steps.{WentOn};
ghost use Rattle.log_sections.specs.LogSections.{AppendSection, IsAbortOf, IsNumbered, TakesAbort};

use crate::appending::Appended;
use crate::refusals::refusal_of;
use disk_core::{LogDisk, PageDisk};
use engine_parts::{
    Caller, EngineLaw, Part, Passing, Stage, command_of, enter_log, leave_log, leave_looked,
};
use hall::{Hall, Note};
use tx_events::{Rec, Refusal};
use wal_core::WalLog;

/// Gives the log back with the session's abort record more.
fn leave_with_abort<L: LogDisk, P: PageDisk>(
    hall: &Hall<EngineLaw<L, P>>,
    caller: &mut Caller<L, P>,
    log: Box<WalLog<L>>,
    rec: &Rec,
)
    requires own { IsOf hall.now caller.old.pass }
    requires laid { hall.now.cells ≡ 3 + 4 * (start_of hall.now).banks }
    requires inside { (view caller.old.pass).stage ≡ Inside log_lock }
    requires cell { caller.old.pass.cell ≡ log_lock }
    requires at { IsAt (start_of hall.now) (view caller.old.pass) caller.old.number caller.old.session }
    requires unrecorded { may_be_recorded caller.old.session.stage ≡ false }
    requires unaborted { may_be_aborted caller.old.session.stage ≡ false }
    requires record { IsAbortOf caller.old.session.levels.open_ids.items rec.now }
    requires up { IsUp (at (view caller.old.pass).seen log_lock) }
    requires base { StaysBase (start_of hall.now) (view caller.old.pass).seen rec.now }
    requires stands { IsLogOf (start_of hall.now) log.value
        (at (view caller.old.pass).seen log_lock ++ record {
          by = by_at caller.old.number caller.old.session.levels.commands;
          kind = kinds.Append rec.now;
        } ∷ []) }
    ensures own { IsOf hall.now caller.new.pass }
    ensures ready { IsReady (start_of hall.now) (view caller.new.pass) caller.new.number caller.new.session }
    ensures left { Leaves (start_of hall.now) log_lock
        (record { by = by_at caller.old.number caller.old.session.levels.commands; kind = kinds.Append rec.now })
        (view caller.old.pass) (view caller.new.pass) }
    ensures session { caller.new.session ≡ record caller.old.session { stage = stages.Aborting } }
    ensures number { caller.new.number ≡ caller.old.number }
{
    let by = command_of(caller);
    let entry = Note::by(&(by, rec));
    leave_log(hall, caller, log, entry);
    caller.session.stage = Stage::Aborting;
}

/// Appends the abort record of what the session has open (`XactLogAbortRecord` of
/// `src/backend/access/transam/xact.c`): one critical section of the log. No commit and no abort was begun. From then
/// on the session's abort is pending.
///
/// Refused with `LogDown`, `Full` or `Memory`; then, and where the log can't take the record, nothing was appended.
pub fn append_abort<R: Passing, L: LogDisk, P: PageDisk>(
    rt: &R,
    hall: &Hall<EngineLaw<L, P>>,
    caller: &mut Caller<L, P>,
    rec: &Rec,
) -> Result<Appended, Refusal>
    requires own { IsOf hall.now caller.old.pass }
    requires laid { hall.now.cells ≡ 3 + 4 * (start_of hall.now).banks }
    requires may { MayCall (start_of hall.now) (view caller.old.pass) caller.old.number caller.old.session }
    requires unrecorded { may_be_recorded caller.old.session.stage ≡ false }
    requires unaborted { may_be_aborted caller.old.session.stage ≡ false }
    requires record { IsAbortOf caller.old.session.levels.open_ids.items rec.now }
    ensures section { AppendSection (start_of hall.now)
        (by_at caller.old.number caller.old.session.levels.commands) rec.now (view caller.old.pass)
        (view caller.new.pass) result }
    ensures numbered { IfOk result (IsNumbered (start_of hall.now) (view caller.new.pass).seen
        (by_at caller.old.number caller.old.session.levels.commands) rec.now) }
    ensures own { IsOf hall.now caller.new.pass }
    ensures may { MayCall (start_of hall.now) (view caller.new.pass) caller.new.number caller.new.session }
    ensures went { WentOn caller.old.number [] (view caller.old.pass).seen (view caller.new.pass).seen }
    ensures takes { TakesAbort (start_of hall.now) (view caller.new.pass).seen rec.now caller.old.session
        caller.new.session result }
    ensures number { caller.new.number ≡ caller.old.number }
{
    let mut held = enter_log(rt, hall, caller);
    let log = &mut *held;
    if !log.may_append(rec) {
        leave_looked(hall, caller, 0, Part::Log(held));
        return Ok(Appended::NoBase);
    }
    match log.append(rec) {
        Ok(number) => {
            leave_with_abort(hall, caller, held, rec);
            Ok(Appended::At { number })
        }
        Err(refusal) => {
            leave_looked(hall, caller, 0, Part::Log(held));
            Err(refusal_of(refusal))
        }
    }
}
