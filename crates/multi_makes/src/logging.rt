//! The record of a multixact comes to the log, behind a truncation's where the log can't take it yet.
ghost use Rattle.std.specs.Prelude.{◌≡◌, ◌+◌, ◌*◌, [], IfErr, OnOk};
ghost use Rattle.hall.specs.Calls.{view, IsOf, start_of};
ghost use Rattle.log_takes.specs.Takes.{AreOldestTold};
ghost use Rattle.engine_parts.specs.Adding.{Adds, IsOfMulti, IsTruncation, MayAdd};
ghost use Rattle.engine_parts.specs.Sessions.{MayCall, by_at};
ghost use Rattle.engine_parts.specs.Steps.{WentOn};
ghost use Rattle.log_sections.specs.LogSections.{IsAppendRefused};
ghost use Rattle.log_sections.specs.MultiRecords.{IsMakingRecord};
ghost use Rattle.log_sections.specs.Rooms.{FoundNoBase, MetFull, MetFullFor};
ghost use Rattle.multi_makes.specs.Logged.{LogsMulti};
ghost use Rattle.multi_makes.specs.Pending.{IsPending};

use disk_core::{LogDisk, PageDisk};
use engine_parts::{Caller, EngineLaw, Passing};
use hall::Hall;
use log_sections::{Appended, append_multi, append_truncation};
use multi_sections::read_multis;
use proc_sections::read_oldest;
use tx_events::{Rec, Refusal};

/// Appends the record of a truncation to the announced oldest id and the announced oldest multixact with its offset,
/// which the log's records may not tell yet: one look at the ProcArray and one at the generator. The log can take it.
/// Answers the record's number.
fn log_truncation<R: Passing, L: LogDisk, P: PageDisk>(
    rt: &R,
    hall: &Hall<EngineLaw<L, P>>,
    caller: &mut Caller<L, P>,
) -> Result<u64, Refusal>
    requires own { IsOf hall.now caller.old.pass }
    requires laid { hall.now.cells ≡ 3 + 4 * (start_of hall.now).banks }
    requires may { MayCall (start_of hall.now) (view caller.old.pass) caller.old.number caller.old.session }
    ensures own { IsOf hall.now caller.new.pass }
    ensures may { MayCall (start_of hall.now) (view caller.new.pass) caller.new.number caller.new.session }
    ensures went { WentOn caller.old.number [] (view caller.old.pass).seen (view caller.new.pass).seen }
    ensures adds { Adds (by_at caller.old.number caller.old.session.levels.commands) (MayAdd IsTruncation ⊥ (λ _. ⊥))
        (view caller.old.pass).seen (view caller.new.pass).seen }
    ensures told { OnOk result (AreOldestTold (start_of hall.now) (view caller.old.pass).seen
        (view caller.new.pass).seen) }
    ensures refused { IfErr result (IsAppendRefused (start_of hall.now) (view caller.new.pass).seen) }
    ensures same { (caller.new.session ≡ caller.old.session) × (caller.new.number ≡ caller.old.number) }
    ensures full { IfErr result (MetFull (start_of hall.now) (view caller.new.pass).seen
        (by_at caller.old.number caller.old.session.levels.commands) IsTruncation) }
{
    let oldest = read_oldest(rt, hall, caller);
    let multis = read_multis(rt, hall, caller);
    let rec = Rec::Truncate {
        oldest,
        multi: multis.oldest_multi,
        offset: multis.oldest_offset,
    };
    append_truncation(rt, hall, caller, &rec)
}

/// Appends the record of a truncation, and then the multixact's, which the log couldn't take before. Behind the one it
/// can take the other: it tells the oldest numbers that were announced by then, and the multixact was given below their
/// limits.
fn log_behind<R: Passing, L: LogDisk, P: PageDisk>(
    rt: &R,
    hall: &Hall<EngineLaw<L, P>>,
    caller: &mut Caller<L, P>,
    rec: &Rec,
) -> Result<(), Refusal>
    requires own { IsOf hall.now caller.old.pass }
    requires laid { hall.now.cells ≡ 3 + 4 * (start_of hall.now).banks }
    requires may { MayCall (start_of hall.now) (view caller.old.pass) caller.old.number caller.old.session }
    requires record { IsMakingRecord caller.old.session.making rec.now }
    requires no_base { FoundNoBase (start_of hall.now) (view caller.old.pass).seen
        (by_at caller.old.number caller.old.session.levels.commands) rec.now }
    ensures own { IsOf hall.now caller.new.pass }
    ensures may { MayCall (start_of hall.now) (view caller.new.pass) caller.new.number caller.new.session }
    ensures went { WentOn caller.old.number [] (view caller.old.pass).seen (view caller.new.pass).seen }
    ensures adds { Adds (by_at caller.old.number caller.old.session.levels.commands) (MayAdd IsOfMulti ⊥ (λ _. ⊥))
        (view caller.old.pass).seen (view caller.new.pass).seen }
    ensures logs { LogsMulti (start_of hall.now) (view caller.new.pass).seen caller.old.session caller.new.session
        result }
    ensures number { caller.new.number ≡ caller.old.number }
    ensures full { IfErr result (MetFullFor (start_of hall.now) (view caller.new.pass).seen
        (by_at caller.old.number caller.old.session.levels.commands) (IsPending caller.new.session.making)) }
{
    rec.tell_forms();
    match log_truncation(rt, hall, caller) {
        Ok(_) => match append_multi(rt, hall, caller, rec) {
            Ok(Appended::At { .. }) => Ok(()),
            Ok(Appended::NoBase) => unreachable!(),
            Err(refusal) => Err(refusal),
        },
        Err(refusal) => Err(refusal),
    }
}

/// Appends the record of the multixact that the session makes, which has none yet. Where the counters behind it would
/// be no base, since the oldest numbers that the log's records tell are too far behind, a truncation's record comes
/// first. That one stays also where the log then refuses the multixact's.
///
/// Refused with `LogDown`, or where the log isn't down with `Full` or `Memory`; then the multixact's wasn't appended.
pub(crate) fn log_multi<R: Passing, L: LogDisk, P: PageDisk>(
    rt: &R,
    hall: &Hall<EngineLaw<L, P>>,
    caller: &mut Caller<L, P>,
    rec: &Rec,
) -> Result<(), Refusal>
    requires own { IsOf hall.now caller.old.pass }
    requires laid { hall.now.cells ≡ 3 + 4 * (start_of hall.now).banks }
    requires may { MayCall (start_of hall.now) (view caller.old.pass) caller.old.number caller.old.session }
    requires record { IsMakingRecord caller.old.session.making rec.now }
    ensures own { IsOf hall.now caller.new.pass }
    ensures may { MayCall (start_of hall.now) (view caller.new.pass) caller.new.number caller.new.session }
    ensures went { WentOn caller.old.number [] (view caller.old.pass).seen (view caller.new.pass).seen }
    ensures adds { Adds (by_at caller.old.number caller.old.session.levels.commands) (MayAdd IsOfMulti ⊥ (λ _. ⊥))
        (view caller.old.pass).seen (view caller.new.pass).seen }
    ensures logs { LogsMulti (start_of hall.now) (view caller.new.pass).seen caller.old.session caller.new.session
        result }
    ensures number { caller.new.number ≡ caller.old.number }
    ensures full { IfErr result (MetFullFor (start_of hall.now) (view caller.new.pass).seen
        (by_at caller.old.number caller.old.session.levels.commands) (IsPending caller.new.session.making)) }
{
    match append_multi(rt, hall, caller, rec) {
        Ok(Appended::At { .. }) => Ok(()),
        Ok(Appended::NoBase) => log_behind(rt, hall, caller, rec),
        Err(refusal) => Err(refusal),
    }
}
