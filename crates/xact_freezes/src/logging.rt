//! The record of a truncation comes to the log, and onto the disk.
ghost use Rattle.std.specs.Prelude.{[], IfErr, IfOk};
ghost use Rattle.hall.specs.Calls.{view, start_of};
ghost use Rattle.engine_parts.specs.Adding.{IsTruncation};
ghost use Rattle.engine_parts.specs.Calls.{MayStep};
ghost use Rattle.engine_parts.specs.Sessions.{by_at};
ghost use Rattle.log_sections.specs.LogSections.{IsTruncationOf};
ghost use Rattle.log_sections.specs.Rooms.{MetFull};
ghost use Rattle.xact_freezes.specs.Trims.{HasFlushed, IsTrimMet, MayTrim};
ghost use Rattle.xact_freezes.specs.Visits.{Visited};

use disk_core::{LogDisk, PageDisk};
use engine_parts::{Caller, EngineLaw, Passing};
use hall::Hall;
use log_sections::{append_truncation, flush_log};
use tx_events::{Rec, Refusal};

/// Appends the record of a truncation, which the log can take, and puts it on disk.
pub(crate) fn log_trim<R: Passing, L: LogDisk, P: PageDisk>(
    rt: &R,
    hall: &Hall<EngineLaw<L, P>>,
    caller: &mut Caller<L, P>,
    banks: u32,
    rec: &Rec,
) -> Result<(), Refusal>
    requires step { MayStep hall.now banks caller.old }
    requires record { IsTruncationOf (start_of hall.now) (view caller.old.pass).seen rec.now }
    ensures visited { Visited hall.now banks (MayTrim result) [] caller.old caller.new }
    ensures flushed { IfOk result (λ _. HasFlushed (start_of hall.now) (view caller.new.pass).seen
        (by_at caller.old.number caller.old.session.levels.commands) rec.now) }
    ensures met { IfErr result (IsTrimMet (start_of hall.now) (view caller.new.pass).seen
        (by_at caller.old.number caller.old.session.levels.commands)) }
    ensures full { IfErr result (MetFull (start_of hall.now) (view caller.new.pass).seen
        (by_at caller.old.number caller.old.session.levels.commands) IsTruncation) }
{
    match append_truncation(rt, hall, caller, rec) {
        Ok(number) => flush_log(rt, hall, caller, number),
        Err(refusal) => Err(refusal),
    }
}
