//! The log of a new cluster (`BootStrapXLOG` of `src/backend/access/transam/xlog.c`).
ghost use Rattle.std.specs.Prelude.{◌≡◌, ◌≤◌, ◌+◌, [], ◌∷◌, IfErr, IfOk, OnOk};
ghost use Rattle.tx_events.specs.Base.{IsBase};
ghost use Rattle.tx_events.specs.declared.record.Rec.TheVariants as records;
ghost use Rattle.wal_core.specs.LogViews.{log_disk, log_end, log_pending};
ghost use Rattle.wal_records.specs.Spelling.{AreCounters};
ghost use Rattle.engine_host.specs.Opening.{HasFirst, IsBegunLog, IsEmptyLog, nothing_before};
ghost use Rattle.engine_host.specs.Refused.{IsBeginRefusal};

use crate::cluster::Cluster;
use crate::refusal::{OpenRefusal, refusal_of};
use disk_core::LogDisk;
use std::alloc::Global;
use tx_events::{Counters, Memory, Rec, SharedCounters};
use wal_core::WalLog;

// The first checkpoint.
fn first_record(alloc: Global, base: Counters) -> Result<Rec, Memory>
    requires { IsBase base }
    ensures rec { IfOk result (λ rec. rec ≡ records.Checkpoint 0 base) }
    ensures lawful { AreCounters base }
{
    Ok(Rec::Checkpoint {
        number: 0,
        counters: SharedCounters::of(alloc, base)?,
    })
}

// Puts the first checkpoint on disk, which has the number 0: a batch of 5 bytes and the record's 57.
pub(crate) fn begin_log<L: LogDisk>(
    alloc: Global,
    log: &mut WalLog<L>,
    cluster: &Cluster,
) -> Result<(), OpenRefusal>
    requires new { IsEmptyLog log.old }
    requires base { IsBase cluster.now.base }
    ensures begun { OnOk result (IsBegunLog cluster.now nothing_before log.new) }
    ensures end { OnOk result (log_end log.new ≡ log_end log.old + 62) }
    ensures count { L.faults (log_disk log.old) ≤ L.faults (log_disk log.new) }
    ensures refused { IfErr result (λ refusal. IsBeginRefusal cluster.now log.old log.new refusal) }
{
    let Ok(first) = first_record(alloc, cluster.base) else {
        return Err(OpenRefusal::Memory);
    };
    match log.append(&first) {
        Ok(_) => flush_first(log, cluster),
        Err(refusal) => Err(refusal_of(refusal)),
    }
}

// Flushes the first checkpoint.
fn flush_first<L: LogDisk>(log: &mut WalLog<L>, _cluster: &Cluster) -> Result<(), OpenRefusal>
    requires first { HasFirst _cluster.now log.old }
    requires pending { log_pending log.old ≡ records.Checkpoint 0 _cluster.now.base ∷ [] }
    ensures begun { OnOk result (IsBegunLog _cluster.now nothing_before log.new) }
    ensures end { OnOk result (log_end log.new ≡ log_end log.old + 62) }
    ensures count { L.faults (log_disk log.old) ≤ L.faults (log_disk log.new) }
    ensures refused { IfErr result (λ refusal. IsBeginRefusal _cluster.now log.old log.new refusal) }
{
    match log.flush() {
        Ok(()) => Ok(()),
        Err(refusal) => Err(refusal_of(refusal)),
    }
}
