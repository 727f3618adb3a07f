//! The record of a multixact is appended.
ghost use Rattle.std.specs.Prelude.{◌≡◌, ℕ, ◌+◌, ◌*◌, ◌++◌, ◌∷◌, [], IfErr, IfOk};
ghost use Rattle.hall.specs.declared.view.Stage.TheVariants.{Inside};
ghost use Rattle.hall.specs.Calls.{view, IsOf, start_of};
ghost use Rattle.notes.specs.Lists.{at};
ghost use Rattle.tx_core.specs.declared.entry.Kind.TheVariants as kinds;
ghost use Rattle.tx_core.specs.Laws.{StaysBase};
ghost use Rattle.tx_core.specs.Locks.{log_lock};
ghost use Rattle.tx_core.specs.StaysDown.{IsUp};
ghost use Rattle.engine_parts.specs.Holds.{Leaves};
ghost use Rattle.engine_parts.specs.Parts.{IsLogOf};
ghost use Rattle.engine_parts.specs.Sessions.{IsAt, IsReady, MayCall, by_at};
ghost use Rattle.engine_parts.specs.Steps.{WentOn};
ghost use Rattle.log_sections.specs.LogSections.{AppendSection, IsNumbered};
ghost use Rattle.log_sections.specs.MultiRecords.{IsMakingRecord, TakesMulti, making_logged, session_logged};
ghost use Rattle.log_sections.specs.Rooms.{MetFull};

use crate::appending::Appended;
use crate::refusals::refusal_of;
use disk_core::{LogDisk, PageDisk};
use engine_parts::{
    Caller, EngineLaw, Making, Part, Passing, command_of, enter_log, leave_log, leave_looked,
};
use hall::{Hall, Note};
use tx_events::{Rec, Refusal};
use wal_core::WalLog;

/// The multixact that is made counts as logged.
fn mark_logged(making: &mut Option<Making>)
    ensures { making.new ≡ making_logged making.old }
{
    if let Some(made) = making {
        made.logged = true;
    }
}

/// Gives the log back with the record more of the multixact that the session makes.
fn leave_recorded<L: LogDisk, P: PageDisk>(
    hall: &Hall<EngineLaw<L, P>>,
    caller: &mut Caller<L, P>,
    log: Box<WalLog<L>>,
    rec: &Rec,
)
    requires own { IsOf hall.now caller.old.pass }
    requires laid { hall.now.cells ≡ 3 + 4 * (start_of hall.now).banks }
    requires inside { (view caller.old.pass).stage ≡ Inside log_lock }
    requires cell { caller.old.pass.cell ≡ log_lock }
    requires at { IsAt (start_of hall.now) (view caller.old.pass) caller.old.number caller.old.session }
    requires record { IsMakingRecord caller.old.session.making rec.now }
    requires up { IsUp (at (view caller.old.pass).seen log_lock) }
    requires base { StaysBase (start_of hall.now) (view caller.old.pass).seen rec.now }
    requires stands { IsLogOf (start_of hall.now) log.value
        (at (view caller.old.pass).seen log_lock ++ record {
          by = by_at caller.old.number caller.old.session.levels.commands;
          kind = kinds.Append rec.now;
        } ∷ []) }
    ensures own { IsOf hall.now caller.new.pass }
    ensures ready { IsReady (start_of hall.now) (view caller.new.pass) caller.new.number caller.new.session }
    ensures left { Leaves (start_of hall.now) log_lock
        (record { by = by_at caller.old.number caller.old.session.levels.commands; kind = kinds.Append rec.now })
        (view caller.old.pass) (view caller.new.pass) }
    ensures session { caller.new.session ≡ session_logged caller.old.session }
    ensures number { caller.new.number ≡ caller.old.number }
{
    let by = command_of(caller);
    let entry = Note::by(&(by, rec));
    leave_log(hall, caller, log, entry);
    mark_logged(&mut caller.session.making);
}

/// Appends the record of the multixact that the session makes (`XLOG_MULTIXACT_CREATE_ID` in `MultiXactIdCreateFromMembers`
/// of `src/backend/access/transam/multixact.c`): one critical section of the log. It has none yet. From then on it counts
/// as logged.
///
/// Refused with `LogDown`, or where the log isn't down with `Full` or `Memory`; then, and where the log can't take the
/// record, nothing was appended, and the session stands as before.
pub fn append_multi<R: Passing, L: LogDisk, P: PageDisk>(
    rt: &R,
    hall: &Hall<EngineLaw<L, P>>,
    caller: &mut Caller<L, P>,
    rec: &Rec,
) -> Result<Appended, Refusal>
    requires own { IsOf hall.now caller.old.pass }
    requires laid { hall.now.cells ≡ 3 + 4 * (start_of hall.now).banks }
    requires may { MayCall (start_of hall.now) (view caller.old.pass) caller.old.number caller.old.session }
    requires record { IsMakingRecord caller.old.session.making rec.now }
    ensures section { AppendSection (start_of hall.now)
        (by_at caller.old.number caller.old.session.levels.commands) rec.now (view caller.old.pass)
        (view caller.new.pass) result }
    ensures numbered { IfOk result (IsNumbered (start_of hall.now) (view caller.new.pass).seen
        (by_at caller.old.number caller.old.session.levels.commands) rec.now) }
    ensures own { IsOf hall.now caller.new.pass }
    ensures may { MayCall (start_of hall.now) (view caller.new.pass) caller.new.number caller.new.session }
    ensures went { WentOn caller.old.number [] (view caller.old.pass).seen (view caller.new.pass).seen }
    ensures takes { TakesMulti (start_of hall.now) (view caller.new.pass).seen rec.now caller.old.session
        caller.new.session result }
    ensures full { IfErr result (MetFull (start_of hall.now) (view caller.new.pass).seen
        (by_at caller.old.number caller.old.session.levels.commands) (λ z. z ≡ rec.now)) }
    ensures number { caller.new.number ≡ caller.old.number }
{
    let mut held = enter_log(rt, hall, caller);
    let log = &mut *held;
    if !log.may_append(rec) {
        leave_looked(hall, caller, 0, Part::Log(held));
        return Ok(Appended::NoBase);
    }
    match log.append(rec) {
        Ok(number) => {
            leave_recorded(hall, caller, held, rec);
            Ok(Appended::At { number })
        }
        Err(refusal) => {
            leave_looked(hall, caller, 0, Part::Log(held));
            Err(refusal_of(refusal))
        }
    }
}
