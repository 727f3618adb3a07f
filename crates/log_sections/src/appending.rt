//! The commit record is appended.
ghost use Rattle.std.specs.Prelude.{◌≡◌, ℕ, ◌+◌, ◌*◌, ◌++◌, ◌∷◌, [], None, IfErr};
ghost use Rattle.hall.specs.declared.view.Stage.TheVariants.{Inside};
ghost use Rattle.hall.specs.Calls.{view, IsOf, start_of};
ghost use Rattle.notes.specs.Lists.{at};
ghost use Rattle.tx_core.specs.declared.entry.Kind.TheVariants as kinds;
ghost use Rattle.tx_core.specs.Laws.{StaysBase};
ghost use Rattle.tx_core.specs.Locks.{log_lock};
ghost use Rattle.tx_core.specs.StaysDown.{IsUp};
ghost use Rattle.engine_parts.specs.declared.session.Stage.TheVariants as stages;
ghost use Rattle.engine_parts.specs.Holds.{Leaves};
ghost use Rattle.engine_parts.specs.Parts.{IsLogOf};
ghost use Rattle.engine_parts.specs.Sessions.{IsAt, IsReady, MayCall, by_at};
ghost use Rattle.engine_parts.specs.Stages.{AreUnasked};
ghost use Rattle.engine_parts.specs.Steps.{WentOn};
ghost use Rattle.log_sections.specs.LogSections.{AppendSection, Appends, IsCommitOf};
ghost use Rattle.log_sections.specs.Rooms.{MetFull};

use crate::refusals::refusal_of;
use disk_core::{LogDisk, PageDisk};
use engine_parts::{
    Caller, EngineLaw, Part, Passing, Stage, command_of, enter_log, leave_log, leave_looked,
};
use hall::{Hall, Note};
use tx_events::{Rec, Refusal};
use wal_core::WalLog;

/// What came of a commit record.
#[derive(Clone, Copy, Debug, PartialEq, Eq)]
pub enum Appended {
    /// It stands in the log, under this number.
    At { number: u64 },
    /// The log can't take it next: the counters after it would be no base, since the oldest id that the log's records
    /// tell is too far behind. A truncation's record comes first.
    NoBase,
}

/// Gives the log back with the session's commit record more.
fn leave_appended<L: LogDisk, P: PageDisk>(
    hall: &Hall<EngineLaw<L, P>>,
    caller: &mut Caller<L, P>,
    log: Box<WalLog<L>>,
    rec: &Rec,
    number: u64,
)
    requires own { IsOf hall.now caller.old.pass }
    requires laid { hall.now.cells ≡ 3 + 4 * (start_of hall.now).banks }
    requires inside { (view caller.old.pass).stage ≡ Inside log_lock }
    requires cell { caller.old.pass.cell ≡ log_lock }
    requires at { IsAt (start_of hall.now) (view caller.old.pass) caller.old.number caller.old.session }
    requires clear { caller.old.session.stage ≡ stages.Clear }
    requires linked { caller.old.session.unlinked ≡ None }
    requires record { IsCommitOf caller.old.session.levels.open_ids.items rec.now }
    requires up { IsUp (at (view caller.old.pass).seen log_lock) }
    requires unasked { AreUnasked (view caller.old.pass).seen caller.old.number
        caller.old.session.levels.open_ids.items }
    requires base { StaysBase (start_of hall.now) (view caller.old.pass).seen rec.now }
    requires stands { IsLogOf (start_of hall.now) log.value
        (at (view caller.old.pass).seen log_lock ++ record {
          by = by_at caller.old.number caller.old.session.levels.commands;
          kind = kinds.Append rec.now;
        } ∷ []) }
    ensures own { IsOf hall.now caller.new.pass }
    ensures ready { IsReady (start_of hall.now) (view caller.new.pass) caller.new.number caller.new.session }
    ensures left { Leaves (start_of hall.now) log_lock
        (record { by = by_at caller.old.number caller.old.session.levels.commands; kind = kinds.Append rec.now })
        (view caller.old.pass) (view caller.new.pass) }
    ensures session { caller.new.session ≡ record caller.old.session { stage = stages.Logged number } }
    ensures number { caller.new.number ≡ caller.old.number }
{
    let by = command_of(caller);
    let entry = Note::by(&(by, rec));
    leave_log(hall, caller, log, entry);
    caller.session.stage = Stage::Logged { number };
}

/// Appends the commit record of what the session has open (`XactLogCommitRecord` of
/// `src/backend/access/transam/xact.c`): one critical section of the log. No end was begun, and the parents of all open
/// ids are recorded. From then on the session's commit is pending under the record's number.
///
/// Refused with `LogDown`, or where the log isn't down with `Full` or `Memory`; then, and where the log can't take the
/// record, nothing was appended.
pub fn append_commit<R: Passing, L: LogDisk, P: PageDisk>(
    rt: &R,
    hall: &Hall<EngineLaw<L, P>>,
    caller: &mut Caller<L, P>,
    rec: &Rec,
) -> Result<Appended, Refusal>
    requires own { IsOf hall.now caller.old.pass }
    requires laid { hall.now.cells ≡ 3 + 4 * (start_of hall.now).banks }
    requires may { MayCall (start_of hall.now) (view caller.old.pass) caller.old.number caller.old.session }
    requires clear { caller.old.session.stage ≡ stages.Clear }
    requires linked { caller.old.session.unlinked ≡ None }
    requires record { IsCommitOf caller.old.session.levels.open_ids.items rec.now }
    ensures own { IsOf hall.now caller.new.pass }
    ensures may { MayCall (start_of hall.now) (view caller.new.pass) caller.new.number caller.new.session }
    ensures went { WentOn caller.old.number [] (view caller.old.pass).seen (view caller.new.pass).seen }
    ensures section { AppendSection (start_of hall.now)
        (by_at caller.old.number caller.old.session.levels.commands) rec.now (view caller.old.pass)
        (view caller.new.pass) result }
    ensures appends { Appends (start_of hall.now) (view caller.new.pass).seen rec.now caller.old.session
        caller.new.session result }
    ensures full { IfErr result (MetFull (start_of hall.now) (view caller.new.pass).seen
        (by_at caller.old.number caller.old.session.levels.commands) (λ z. z ≡ rec.now)) }
    ensures number { caller.new.number ≡ caller.old.number }
{
    let mut held = enter_log(rt, hall, caller);
    let log = &mut *held;
    if !log.may_append(rec) {
        leave_looked(hall, caller, 0, Part::Log(held));
        return Ok(Appended::NoBase);
    }
    match log.append(rec) {
        Ok(number) => {
            leave_appended(hall, caller, held, rec, number);
            Ok(Appended::At { number })
        }
        Err(refusal) => {
            leave_looked(hall, caller, 0, Part::Log(held));
            Err(refusal_of(refusal))
        }
    }
}
