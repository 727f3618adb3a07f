//! The checkpoint is written, and the log forgotten before it.
ghost use Rattle.std.specs.Prelude.{◌≡◌};
ghost use Rattle.hall.specs.Calls.{start_of, view};
ghost use Rattle.notes.specs.Lists.{at};
ghost use Rattle.tx_events.specs.Base.{IsBase};
ghost use Rattle.tx_core.specs.EngineInvariant.{EngineInvariant};
ghost use Rattle.tx_core.specs.Entries.{flushed_to};
ghost use Rattle.tx_core.specs.Locks.{log_lock};
ghost use Rattle.tx_core.specs.ProgramOrder.{IsHostsTurn};
ghost use Rattle.tx_core.specs.StaysDown.{IsUp};
ghost use Rattle.engine_parts.specs.Alone.{IsAlone};
ghost use Rattle.host_sections.specs.HostEntries.{next_number};
ghost use Rattle.host_calls.specs.Added.{WritesCheckpoint};
ghost use Rattle.host_calls.specs.Moments.{KeptThroughout};
ghost use Rattle.host_calls.specs.Synced.{AreAllMade, AreAllSynced};

use disk_core::{LogDisk, PageDisk};
use engine_parts::EngineLaw;
use hall::{Hall, Pass};
use host_sections::{append_checkpoint, flush_records, forget_log, read_counters};
use std::alloc::Global;
use std::sync::Wait;
use tx_events::{By, SharedCounters};
use wal_core::LogRefusal;

/// Appends a checkpoint of the counters as they stand, puts it on disk, and forgets the log before it, where all records
/// are on disk and all that they would restore. Refused with `LogFault`, or before the append with `Full` or `Memory`.
pub(crate) fn write_checkpoint<R: Wait, L: LogDisk, P: PageDisk>(
    rt: &R,
    alloc: Global,
    hall: &Hall<EngineLaw<L, P>>,
    pass: &mut Pass<EngineLaw<L, P>>,
    by: By,
) -> Result<(), LogRefusal>
    requires alone { IsAlone hall.now pass.old }
    requires turn { IsHostsTurn (start_of hall.now) by }
    requires lawful { IsBase (start_of hall.now).base }
    requires up { IsUp (at (view pass.old).seen log_lock) }
    requires flushed { flushed_to (start_of hall.now) (at (view pass.old).seen log_lock)
        ≡ next_number (start_of hall.now) (view pass.old).seen }
    requires synced { AreAllSynced (start_of hall.now) (view pass.old).seen }
    requires made { AreAllMade (start_of hall.now) (view pass.old).seen }
    ensures alone { IsAlone hall.now pass.new }
    ensures holds { (view pass.new).holds ≡ (view pass.old).holds }
    ensures kept { EngineInvariant (start_of hall.now) (view pass.new).seen }
    ensures stages { KeptThroughout L.LogDisk P.PageDisk (start_of hall.now) (view pass.old).seen (view pass.new).seen }
    ensures adds { WritesCheckpoint (start_of hall.now) by (view pass.old).seen (view pass.new).seen result }
{
    let counters = read_counters(rt, hall, pass);
    let Ok(shared) = SharedCounters::of(alloc, counters) else {
        return Err(LogRefusal::Memory);
    };
    match append_checkpoint(rt, hall, pass, by, shared) {
        Ok(number) => match flush_records(rt, hall, pass, by) {
            Ok(()) => forget_log(rt, hall, pass, by, number),
            Err(refusal) => Err(refusal),
        },
        Err(refusal) => Err(refusal),
    }
}
