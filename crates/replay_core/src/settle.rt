// The checkpoint at the end of a recovery (`CreateEndOfRecoveryRecord` and `RemoveOldXlogFiles` in `xlog.c`).
ghost use Rattle.std.specs.Prelude.{◌≡◌, ◌+◌, ◌<◌, ◌≤◌, ◌^◌, IfErr, IfOk, IsTrue, OnErr, OnOk};
ghost use Rattle.tx_events.specs.Base.{IsBase};
ghost use Rattle.tx_events.specs.declared.record.Rec.TheVariants as records;
ghost use Rattle.wal_core.specs.LogViews.{log_disk, log_end, log_next};
ghost use Rattle.wal_records.specs.Spelling.{AreCounters};
ghost use Rattle.replay_core.specs.Begun.{IsSettled};
ghost use Rattle.replay_core.specs.Moments.{SettlesThroughout};
ghost use Rattle.replay_core.specs.Opened.{HasCheckpoint, IsOpen, LeavesLog, SettlesLog};
ghost use Rattle.replay_core.specs.Refused.{IsSettleRefusal};

use crate::refusal::{RecoverRefusal, refusal_of};
use disk_core::LogDisk;
use std::alloc::Global;
use tx_events::{Counters, Memory, Rec, SharedCounters};
use wal_core::WalLog;

// The record.
fn checkpoint(alloc: Global, number: u64, base: Counters) -> Result<Rec, Memory>
    requires { IsBase base }
    ensures rec { IfOk result (λ rec. rec ≡ records.Checkpoint number base) }
    ensures lawful { AreCounters base }
    ensures small { number < 2 ^ 64 }
{
    Ok(Rec::Checkpoint {
        number,
        counters: SharedCounters::of(alloc, base)?,
    })
}

// Appends it to a log that was just started.
fn append_checkpoint<D: LogDisk>(
    alloc: Global,
    log: &mut WalLog<D>,
    base: Counters,
) -> Result<(), RecoverRefusal>
    requires { IsOpen base log.old }
    ensures done { OnOk result (HasCheckpoint (log_next log.old) base log.old log.new) }
    ensures left { IsTrue D.tells → OnErr result (LeavesLog D.LogDisk base log.old log.new) }
    ensures same_disk { log_disk log.new ≡ log_disk log.old }
    ensures end { log_end log.new ≡ log_end log.old }
    ensures count { D.faults (log_disk log.old) ≤ D.faults (log_disk log.new) }
    ensures refused { IfErr result (λ refusal. IsSettleRefusal (log_next log.old) base log.old log.new refusal) }
{
    let Ok(rec) = checkpoint(alloc, log.next(), base) else {
        return Err(RecoverRefusal::Memory);
    };
    match log.append(&rec) {
        Ok(_) => Ok(()),
        Err(refusal) => Err(refusal_of(refusal)),
    }
}

/// Puts a checkpoint of these counters on disk, alone in its batch of 62 bytes, and forgets the log before it.
pub(crate) fn settle<D: LogDisk>(
    alloc: Global,
    log: &mut WalLog<D>,
    base: Counters,
) -> Result<(), RecoverRefusal>
    requires { IsOpen base log.old }
    ensures settled { OnOk result (IsSettled (log_next log.old) base log.new) }
    ensures end { OnOk result (log_end log.new ≡ log_end log.old + 62) }
    ensures kept { IsTrue D.tells → OnOk result (SettlesLog D.LogDisk base log.old log.new) }
    ensures left { IsTrue D.tells → OnErr result (LeavesLog D.LogDisk base log.old log.new) }
    ensures moments { IsTrue D.tells → SettlesThroughout D.LogDisk base log.old log.new }
    ensures count { D.faults (log_disk log.old) ≤ D.faults (log_disk log.new) }
    ensures refused { IfErr result (λ refusal. IsSettleRefusal (log_next log.old) base log.old log.new refusal) }
{
    append_checkpoint(alloc, log, base)?;
    if let Err(refusal) = log.flush() {
        return Err(refusal_of(refusal));
    }
    match log.forget_before_checkpoint() {
        Ok(()) => Ok(()),
        Err(refusal) => Err(refusal_of(refusal)),
    }
}
