//! The log is flushed.
ghost use Rattle.std.specs.Prelude.{◌≡◌, ℕ, ◌+◌, ◌*◌, ◌<◌, ◌≤◌, ◌++◌, ◌∷◌, [], length, MatchResult};
ghost use Rattle.hall.specs.declared.view.Stage.TheVariants.{Inside};
ghost use Rattle.hall.specs.Calls.{view, IsOf, start_of};
ghost use Rattle.notes.specs.Lists.{at};
ghost use Rattle.tx_core.specs.declared.entry.Kind.TheVariants as kinds;
ghost use Rattle.disk_core.specs.Faults.{HasRisen};
ghost use Rattle.tx_core.specs.Entries.{flushed_to, records_of};
ghost use Rattle.tx_core.specs.FaultsRise.{faults_told};
ghost use Rattle.tx_core.specs.Locks.{log_lock};
ghost use Rattle.tx_core.specs.StaysDown.{IsUp};
ghost use Rattle.wal_core.specs.LogViews.{log_disk};
ghost use Rattle.engine_parts.specs.Faults.{flush_fault_by};
ghost use Rattle.engine_parts.specs.Holds.{Leaves};
ghost use Rattle.engine_parts.specs.Parts.{IsLogOf};
ghost use Rattle.engine_parts.specs.Sessions.{IsAt, IsReady, MayCall, by_at};
ghost use Rattle.engine_parts.specs.Steps.{WentOn};
ghost use Rattle.log_sections.specs.LogSections.{FlushSection, IsFlushedPast, IsFlushRefused};

use crate::refusals::refusal_of;
use disk_core::{LogDisk, PageDisk};
use engine_parts::{
    Caller, EngineLaw, Part, Passing, command_of, enter_log, flush_fault_note, leave_looked,
    leave_quiet,
};
use hall::{Hall, Note};
use tx_core::Entry;
use tx_events::{By, Refusal};
use wal_core::{LogRefusal, WalLog};

/// The entry of a flush of the records below this number.
fn flush_note(by: By, to: u64) -> Note<Entry>
    ensures { result.value ≡ record { by = by; kind = kinds.Flush to } }
{
    Note::by(&(by, to))
}

/// Gives the log back, of which the records below this number are on disk.
fn leave_flushed<L: LogDisk, P: PageDisk>(
    hall: &Hall<EngineLaw<L, P>>,
    caller: &mut Caller<L, P>,
    log: Box<WalLog<L>>,
    to: u64,
)
    requires own { IsOf hall.now caller.old.pass }
    requires laid { hall.now.cells ≡ 3 + 4 * (start_of hall.now).banks }
    requires inside { (view caller.old.pass).stage ≡ Inside log_lock }
    requires cell { caller.old.pass.cell ≡ log_lock }
    requires at { IsAt (start_of hall.now) (view caller.old.pass) caller.old.number caller.old.session }
    requires rises { flushed_to (start_of hall.now) (at (view caller.old.pass).seen log_lock) ≤ to }
    requires up { IsUp (at (view caller.old.pass).seen log_lock) }
    requires within { to ≤ (start_of hall.now).from + length (records_of (view caller.old.pass).seen) }
    requires stands { IsLogOf (start_of hall.now) log.value
        (at (view caller.old.pass).seen log_lock ++ record {
          by = by_at caller.old.number caller.old.session.levels.commands;
          kind = kinds.Flush to;
        } ∷ []) }
    ensures own { IsOf hall.now caller.new.pass }
    ensures ready { IsReady (start_of hall.now) (view caller.new.pass) caller.new.number caller.new.session }
    ensures left { Leaves (start_of hall.now) log_lock
        (record { by = by_at caller.old.number caller.old.session.levels.commands; kind = kinds.Flush to })
        (view caller.old.pass) (view caller.new.pass) }
    ensures same { (caller.new.session ≡ caller.old.session) × (caller.new.number ≡ caller.old.number) }
{
    let by = command_of(caller);
    let entry = flush_note(by, to);
    leave_quiet(hall, caller, 0, Part::Log(log), entry);
}

/// Gives the log back, whose volume failed in a flush.
fn leave_failed<L: LogDisk, P: PageDisk>(
    hall: &Hall<EngineLaw<L, P>>,
    caller: &mut Caller<L, P>,
    log: Box<WalLog<L>>,
)
    requires own { IsOf hall.now caller.old.pass }
    requires laid { hall.now.cells ≡ 3 + 4 * (start_of hall.now).banks }
    requires inside { (view caller.old.pass).stage ≡ Inside log_lock }
    requires cell { caller.old.pass.cell ≡ log_lock }
    requires at { IsAt (start_of hall.now) (view caller.old.pass) caller.old.number caller.old.session }
    requires up { IsUp (at (view caller.old.pass).seen log_lock) }
    requires risen { HasRisen
        (faults_told (start_of hall.now) log_lock (at (view caller.old.pass).seen log_lock))
        (L.faults (log_disk log.value)) }
    requires stands { IsLogOf (start_of hall.now) log.value
        (at (view caller.old.pass).seen log_lock
        ++ flush_fault_by (by_at caller.old.number caller.old.session.levels.commands) (L.faults (log_disk log.value)) ∷ []) }
    ensures own { IsOf hall.now caller.new.pass }
    ensures ready { IsReady (start_of hall.now) (view caller.new.pass) caller.new.number caller.new.session }
    ensures left { Leaves (start_of hall.now) log_lock
        (flush_fault_by (by_at caller.old.number caller.old.session.levels.commands) (L.faults (log_disk log.value)))
        (view caller.old.pass) (view caller.new.pass) }
    ensures same { (caller.new.session ≡ caller.old.session) × (caller.new.number ≡ caller.old.number) }
{
    let by = command_of(caller);
    let entry = flush_fault_note(by, &*log);
    leave_quiet(hall, caller, 0, Part::Log(log), entry);
}

/// Puts the record of this number on disk with all that stand before it (`XLogFlush` of
/// `src/backend/access/transam/xlog.c`): one critical section of the log. No device call is made where another
/// session's flush covered the record, even on a log that is down; else all records are flushed.
///
/// Refused with `LogFault`, after which the log is down and the record may be on disk or not, or with `LogDown`, where
/// the record wasn't on disk when the log went down.
pub fn flush_log<R: Passing, L: LogDisk, P: PageDisk>(
    rt: &R,
    hall: &Hall<EngineLaw<L, P>>,
    caller: &mut Caller<L, P>,
    number: u64,
) -> Result<(), Refusal>
    requires own { IsOf hall.now caller.old.pass }
    requires laid { hall.now.cells ≡ 3 + 4 * (start_of hall.now).banks }
    requires may { MayCall (start_of hall.now) (view caller.old.pass) caller.old.number caller.old.session }
    requires stands { ((start_of hall.now).from ≤ number)
        × (number < (start_of hall.now).from + length (records_of (view caller.old.pass).seen)) }
    ensures own { IsOf hall.now caller.new.pass }
    ensures may { MayCall (start_of hall.now) (view caller.new.pass) caller.new.number caller.new.session }
    ensures went { WentOn caller.old.number [] (view caller.old.pass).seen (view caller.new.pass).seen }
    ensures section { FlushSection (start_of hall.now)
        (by_at caller.old.number caller.old.session.levels.commands) number (view caller.old.pass)
        (view caller.new.pass) result }
    ensures flushes { MatchResult result (λ _. IsFlushedPast (view caller.new.pass).seen number)
        (IsFlushRefused (start_of hall.now) (view caller.new.pass).seen
        (by_at caller.old.number caller.old.session.levels.commands) number) }
    ensures same { (caller.new.session ≡ caller.old.session) × (caller.new.number ≡ caller.old.number) }
{
    let mut held = enter_log(rt, hall, caller);
    let log = &mut *held;
    if log.flushed() > number {
        leave_looked(hall, caller, 0, Part::Log(held));
        return Ok(());
    }
    let next = log.next();
    match log.flush() {
        Ok(()) => {
            leave_flushed(hall, caller, held, next);
            Ok(())
        }
        Err(refusal) => {
            if let LogRefusal::LogFault = refusal {
                leave_failed(hall, caller, held);
                return Err(Refusal::LogFault);
            }
            leave_looked(hall, caller, 0, Part::Log(held));
            Err(refusal_of(refusal))
        }
    }
}
