//! The log is flushed, a checkpoint is appended, and the log is forgotten before it.
ghost use Rattle.std.specs.Prelude.{◌≡◌};
ghost use Rattle.hall.specs.Calls.{start_of, view};
ghost use Rattle.notes.specs.Lists.{at};
ghost use Rattle.tx_events.specs.declared.record.Rec.TheVariants as records;
ghost use Rattle.tx_core.specs.EngineInvariant.{EngineInvariant};
ghost use Rattle.tx_core.specs.Laws.{StaysBase};
ghost use Rattle.tx_core.specs.Locks.{log_lock};
ghost use Rattle.tx_core.specs.ProgramOrder.{IsHostsTurn};
ghost use Rattle.tx_core.specs.RecordsFollow.{CheckpointOf};
ghost use Rattle.tx_core.specs.SyncsBeforeForgets.{MayForget};
ghost use Rattle.wal_core.specs.LogViews.{log_disk};
ghost use Rattle.wal_records.specs.Spelling.{AreCounters};
ghost use Rattle.engine_parts.specs.Alone.{IsAlone};
ghost use Rattle.engine_parts.specs.Stand.{EndsInCheckpoint};
ghost use Rattle.host_sections.specs.Asked.{AsksVolume};
ghost use Rattle.host_sections.specs.HostEntries.{AddsCheckpoint, AddsFlush, AddsForget, append_by, flush_by, forget_by, forget_fault_by, next_number};

use crate::home::take_log;
use disk_core::{LogDisk, PageDisk};
use engine_parts::{EngineLaw, Part, flush_fault_note, leave};
use hall::{Hall, Note, Pass};
use std::sync::Wait;
use tx_core::Entry;
use tx_events::{By, Rec, SharedCounters};
use wal_core::{LogRefusal, WalLog};

// The entry of a flush of the records below this number.
fn flush_note(by: By, to: u64) -> Note<Entry>
    ensures { result.value ≡ flush_by by to }
{
    Note::by(&(by, to))
}

// The entry of a record that was appended.
fn append_note(by: By, rec: &Rec) -> Note<Entry>
    ensures { result.value ≡ append_by by rec.now }
{
    Note::by(&(by, rec))
}

// The log is forgotten before this checkpoint.
fn forget_note(by: By, number: u64) -> Note<Entry>
    ensures { result.value ≡ forget_by by number }
{
    Note::by(&(by, number))
}

// Its volume failed then.
fn forget_fault_note<L: LogDisk>(by: By, number: u64, log: &WalLog<L>) -> Note<Entry>
    ensures { result.value ≡ forget_fault_by by number (L.faults (log_disk log.now)) }
{
    let asked = (by, number);
    Note::by(&(asked, log))
}

/// Puts all records on disk (`XLogFlush` of `src/backend/access/transam/xlog.c`). Refused with `LogFault`, after which
/// the log is down and the records may be on disk or not, or with `LogDown`.
pub fn flush_records<R: Wait, L: LogDisk, P: PageDisk>(
    rt: &R,
    hall: &Hall<EngineLaw<L, P>>,
    pass: &mut Pass<EngineLaw<L, P>>,
    by: By,
) -> Result<(), LogRefusal>
    requires alone { IsAlone hall.now pass.old }
    requires turn { IsHostsTurn (start_of hall.now) by }
    ensures alone { IsAlone hall.now pass.new }
    ensures holds { (view pass.new).holds ≡ (view pass.old).holds }
    ensures kept { EngineInvariant (start_of hall.now) (view pass.new).seen }
    ensures was_kept { EngineInvariant (start_of hall.now) (view pass.old).seen }
    ensures adds { AddsFlush (start_of hall.now) by (view pass.old).seen (view pass.new).seen result }
    ensures asks { AsksVolume L.LogDisk P.PageDisk (start_of hall.now) log_lock (view pass.old).seen (view pass.new).seen }
{
    let mut held = take_log(rt, hall, pass);
    let log = &mut *held;
    let next = log.next();
    match log.flush() {
        Ok(()) => {
            let flush = flush_note(by, next);
            leave(hall, pass, Part::Log(held), flush);
            Ok(())
        }
        Err(refusal) => {
            if let LogRefusal::LogFault = refusal {
                let fault = flush_fault_note(by, &*held);
                leave(hall, pass, Part::Log(held), fault);
                return Err(LogRefusal::LogFault);
            }
            hall.put_back(pass, Part::Log(held));
            Err(refusal)
        }
    }
}

/// Appends a checkpoint of these counters (`CreateCheckPoint` of `xlog.c`), which the histories gave and which aren't
/// below the log's, and answers its number. Refused with `LogDown`, or where the log isn't down with `Full` or `Memory`;
/// then nothing was appended.
pub fn append_checkpoint<R: Wait, L: LogDisk, P: PageDisk>(
    rt: &R,
    hall: &Hall<EngineLaw<L, P>>,
    pass: &mut Pass<EngineLaw<L, P>>,
    by: By,
    counters: SharedCounters,
) -> Result<u64, LogRefusal>
    requires alone { IsAlone hall.now pass.old }
    requires turn { IsHostsTurn (start_of hall.now) by }
    requires lawful { AreCounters counters }
    requires base { StaysBase (start_of hall.now) (view pass.old).seen
        (records.Checkpoint (next_number (start_of hall.now) (view pass.old).seen) counters) }
    requires follows { CheckpointOf (start_of hall.now) (view pass.old).seen (at (view pass.old).seen log_lock)
        (next_number (start_of hall.now) (view pass.old).seen) counters }
    ensures alone { IsAlone hall.now pass.new }
    ensures holds { (view pass.new).holds ≡ (view pass.old).holds }
    ensures kept { EngineInvariant (start_of hall.now) (view pass.new).seen }
    ensures adds { AddsCheckpoint (start_of hall.now) by counters (view pass.old).seen (view pass.new).seen result }
    ensures asks { AsksVolume L.LogDisk P.PageDisk (start_of hall.now) log_lock (view pass.old).seen (view pass.new).seen }
{
    let mut held = take_log(rt, hall, pass);
    let log = &mut *held;
    let rec = Rec::Checkpoint {
        number: log.next(),
        counters,
    };
    match log.append(&rec) {
        Ok(number) => {
            let mark = append_note(by, &rec);
            leave(hall, pass, Part::Log(held), mark);
            Ok(number)
        }
        Err(refusal) => {
            hall.put_back(pass, Part::Log(held));
            Err(refusal)
        }
    }
}

/// Forgets the log before a checkpoint that was just put on disk alone (`RemoveOldXlogFiles` of `xlog.c`). All that the
/// records before it would restore is on disk. Refused with `LogFault`, after which the log is down and these records may
/// be forgotten or not, or with `LogDown`.
pub fn forget_log<R: Wait, L: LogDisk, P: PageDisk>(
    rt: &R,
    hall: &Hall<EngineLaw<L, P>>,
    pass: &mut Pass<EngineLaw<L, P>>,
    by: By,
    number: u64,
) -> Result<(), LogRefusal>
    requires alone { IsAlone hall.now pass.old }
    requires turn { IsHostsTurn (start_of hall.now) by }
    requires ends { EndsInCheckpoint (start_of hall.now) (at (view pass.old).seen log_lock) number }
    requires may { MayForget (start_of hall.now) (view pass.old).seen (at (view pass.old).seen log_lock) number }
    ensures alone { IsAlone hall.now pass.new }
    ensures holds { (view pass.new).holds ≡ (view pass.old).holds }
    ensures kept { EngineInvariant (start_of hall.now) (view pass.new).seen }
    ensures adds { AddsForget (start_of hall.now) by number (view pass.old).seen (view pass.new).seen result }
    ensures asks { AsksVolume L.LogDisk P.PageDisk (start_of hall.now) log_lock (view pass.old).seen (view pass.new).seen }
{
    let mut held = take_log(rt, hall, pass);
    let log = &mut *held;
    match log.forget_before_checkpoint() {
        Ok(()) => {
            let forget = forget_note(by, number);
            leave(hall, pass, Part::Log(held), forget);
            Ok(())
        }
        Err(refusal) => {
            if let LogRefusal::LogFault = refusal {
                let fault = forget_fault_note(by, number, &*held);
                leave(hall, pass, Part::Log(held), fault);
                return Err(LogRefusal::LogFault);
            }
            hall.put_back(pass, Part::Log(held));
            Err(refusal)
        }
    }
}
