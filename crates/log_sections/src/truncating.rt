//! The record of a truncation is appended.
ghost use Rattle.std.specs.Prelude.{◌≡◌, ◌+◌, ◌*◌, ◌++◌, ◌∷◌, [], IfErr, IfOk};
ghost use Rattle.hall.specs.declared.view.Stage.TheVariants.{Inside};
ghost use Rattle.hall.specs.Calls.{view, IsOf, start_of};
ghost use Rattle.notes.specs.Lists.{at};
ghost use Rattle.tx_core.specs.declared.entry.Kind.TheVariants as kinds;
ghost use Rattle.tx_core.specs.Laws.{StaysBase};
ghost use Rattle.tx_core.specs.Locks.{log_lock};
ghost use Rattle.tx_core.specs.StaysDown.{IsUp};
ghost use Rattle.engine_parts.specs.Holds.{Leaves};
ghost use Rattle.engine_parts.specs.Parts.{IsLogOf};
ghost use Rattle.engine_parts.specs.Sessions.{IsAt, IsReady, MayCall, by_at};
ghost use Rattle.engine_parts.specs.Steps.{WentOn};
ghost use Rattle.log_sections.specs.LogSections.{IsAppendRefused, IsTruncationOf, StandsUnder, TruncationSection};
ghost use Rattle.log_sections.specs.Rooms.{MetFull};

use crate::refusals::refusal_of;
use disk_core::{LogDisk, PageDisk};
use engine_parts::{
    Caller, EngineLaw, Part, Passing, command_of, enter_log, leave_log, leave_looked,
};
use hall::{Hall, Note};
use tx_events::{Rec, Refusal};
use wal_core::WalLog;

/// Gives the log back with the truncation's record more.
fn leave_truncated<L: LogDisk, P: PageDisk>(
    hall: &Hall<EngineLaw<L, P>>,
    caller: &mut Caller<L, P>,
    log: Box<WalLog<L>>,
    rec: &Rec,
)
    requires own { IsOf hall.now caller.old.pass }
    requires laid { hall.now.cells ≡ 3 + 4 * (start_of hall.now).banks }
    requires inside { (view caller.old.pass).stage ≡ Inside log_lock }
    requires cell { caller.old.pass.cell ≡ log_lock }
    requires at { IsAt (start_of hall.now) (view caller.old.pass) caller.old.number caller.old.session }
    requires record { IsTruncationOf (start_of hall.now) (view caller.old.pass).seen rec.now }
    requires up { IsUp (at (view caller.old.pass).seen log_lock) }
    requires base { StaysBase (start_of hall.now) (view caller.old.pass).seen rec.now }
    requires stands { IsLogOf (start_of hall.now) log.value
        (at (view caller.old.pass).seen log_lock ++ record {
          by = by_at caller.old.number caller.old.session.levels.commands;
          kind = kinds.Append rec.now;
        } ∷ []) }
    ensures own { IsOf hall.now caller.new.pass }
    ensures ready { IsReady (start_of hall.now) (view caller.new.pass) caller.new.number caller.new.session }
    ensures left { Leaves (start_of hall.now) log_lock
        (record { by = by_at caller.old.number caller.old.session.levels.commands; kind = kinds.Append rec.now })
        (view caller.old.pass) (view caller.new.pass) }
    ensures same { (caller.new.session ≡ caller.old.session) × (caller.new.number ≡ caller.old.number) }
{
    let by = command_of(caller);
    let entry = Note::by(&(by, rec));
    leave_log(hall, caller, log, entry);
}

/// Appends the record of a truncation (`WriteTruncateXlogRec` of `src/backend/access/transam/clog.c`): one critical
/// section of the log. It names an oldest id and an oldest multixact that were announced, so the log can take it,
/// whatever records it has. Answers the record's number. The session stands as before.
///
/// Refused with `LogDown`, or where the log isn't down with `Full` or `Memory`; then nothing was appended.
pub fn append_truncation<R: Passing, L: LogDisk, P: PageDisk>(
    rt: &R,
    hall: &Hall<EngineLaw<L, P>>,
    caller: &mut Caller<L, P>,
    rec: &Rec,
) -> Result<u64, Refusal>
    requires own { IsOf hall.now caller.old.pass }
    requires laid { hall.now.cells ≡ 3 + 4 * (start_of hall.now).banks }
    requires may { MayCall (start_of hall.now) (view caller.old.pass) caller.old.number caller.old.session }
    requires record { IsTruncationOf (start_of hall.now) (view caller.old.pass).seen rec.now }
    ensures section { TruncationSection (start_of hall.now)
        (by_at caller.old.number caller.old.session.levels.commands) rec.now (view caller.old.pass)
        (view caller.new.pass) result }
    ensures stands { IfOk result (StandsUnder (start_of hall.now) (view caller.new.pass).seen
        (by_at caller.old.number caller.old.session.levels.commands) rec.now) }
    ensures refused { IfErr result (IsAppendRefused (start_of hall.now) (view caller.new.pass).seen) }
    ensures full { IfErr result (MetFull (start_of hall.now) (view caller.new.pass).seen
        (by_at caller.old.number caller.old.session.levels.commands) (λ z. z ≡ rec.now)) }
    ensures own { IsOf hall.now caller.new.pass }
    ensures may { MayCall (start_of hall.now) (view caller.new.pass) caller.new.number caller.new.session }
    ensures went { WentOn caller.old.number [] (view caller.old.pass).seen (view caller.new.pass).seen }
    ensures same { (caller.new.session ≡ caller.old.session) × (caller.new.number ≡ caller.old.number) }
{
    rec.tell_forms();
    let mut held = enter_log(rt, hall, caller);
    let log = &mut *held;
    match log.append(rec) {
        Ok(number) => {
            leave_truncated(hall, caller, held, rec);
            Ok(number)
        }
        Err(refusal) => {
            leave_looked(hall, caller, 0, Part::Log(held));
            Err(refusal_of(refusal))
        }
    }
}
