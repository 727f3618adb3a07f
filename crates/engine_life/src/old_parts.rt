//! The parts of an engine over a cluster in which a life ran before.
ghost use Rattle.std.specs.Prelude.{◌≡◌, ◌+◌, ◌≤◌, [], false, IfErr, IfOk, IsTrue, length};
ghost use Rattle.recoverable.specs.Fit.{KeptLog};
ghost use Rattle.recoverable.specs.Whole.{BeganRight};
ghost use Rattle.wal_core.specs.LogViews.{log_disk, log_end, log_next};
ghost use Rattle.replay_core.specs.Begun.{IsSettled};
ghost use Rattle.replay_core.specs.Opened.{IsFound};
ghost use Rattle.replay_core.specs.Refused.{IsRefusal};
ghost use Rattle.replay_core.specs.declared.refusal.RecoverRefusal.TheVariants as refusals;
ghost use Rattle.engine_parts.specs.Sessions.{AreGivenBefore};
ghost use Rattle.engine_host.specs.Counted.{AreCounted};
ghost use Rattle.engine_host.specs.Opening.{AreParts, Beginning, ShowBeginning, life_from, new_life};
ghost use Rattle.engine_host.specs.Stores.{Store, banks_of, volumes_in};
ghost use Rattle.engine_life.specs.NextLives.{MayGoOn};
ghost use Rattle.engine_life.specs.Reopening.{IsBaseAt, KeepsStart, LeavesLog, banks_in, behind, cluster_over, volumes_over};

use crate::begun::is_full_multi;
use disk_core::{LogDisk, PageDisk, Volumes};
use engine_host::{BankVolumes, Cluster, LifeRooms, Parts, open_begun};
use replay_core::{Found, RecoverRefusal, Recovered, recover};
use std::alloc::Global;

// The parts over what a recovery left. Only memory may be wanting; the volumes come back then.
fn open_recovered<L: LogDisk + Drop, P: PageDisk + Drop>(
    alloc: Global,
    rooms: &mut LifeRooms<P>,
    recovered: Recovered<L, P>,
    sessions: u32,
) -> Result<Parts<L, P>, (Volumes<L, P>, RecoverRefusal)>
    ghost begins: { Beginning }
    requires some { 1 ≤ length recovered.xact.items }
    requires few { length recovered.xact.items ≤ 16 }
    requires as_many { (length recovered.subtrans.items ≡ length recovered.xact.items)
        × (length recovered.offsets.items ≡ length recovered.xact.items)
        × (length recovered.members.items ≡ length recovered.xact.items) }
    requires sessions { sessions ≤ 64 }
    requires log { IsSettled recovered.from recovered.base recovered.log }
    requires number { begins.number ≡ recovered.from }
    requires before { AreGivenBefore (life_from (cluster_over recovered.base (length recovered.xact.items) sessions) begins []) }
    requires shown { IsTrue P.tells → ShowBeginning P.PageDisk (cluster_over recovered.base (length recovered.xact.items) sessions) begins false 0 (banks_in recovered) }
    requires past { IsTrue L.tells → IsTrue begins.told → KeepsStart (cluster_over recovered.base (length recovered.xact.items) sessions) begins recovered.log }
    ensures cluster { IfOk result (λ parts. parts.cluster ≡ cluster_over recovered.base (length recovered.xact.items) sessions) }
    ensures parts { IfOk result (λ parts. AreParts parts) }
    ensures start { IfOk result (λ parts. parts.start.value ≡ new_life parts.cluster begins parts.locks.items) }
    ensures counted { IfOk result (λ parts. AreCounted L.LogDisk P.PageDisk (log_disk recovered.log) (banks_in recovered)
        parts.start.value.faults) }
    ensures end { IfOk result (λ parts. parts.start.value.gate ≡ log_end recovered.log) }
    ensures refused { IfErr result (λ e. e.1 ≡ refusals.Memory) }
    ensures kept { IfErr result (λ e. (e.0.log ≡ log_disk recovered.log)
        × ((k : Store) → (volumes_in k (banks_of e.0)).items ≡ (volumes_in k (banks_in recovered)).items)) }
{
    let Recovered {
        log,
        xact,
        subtrans,
        offsets,
        members,
        from: _,
        base,
    } = recovered;
    let cluster = Cluster {
        base,
        banks: xact.len() as u32,
        sessions,
    };
    let volumes = BankVolumes {
        xact,
        subtrans,
        offsets,
        members,
    };
    match open_begun(alloc, rooms, log, volumes, cluster) {
        Ok(parts) => Ok(parts),
        Err(volumes) => Err((volumes, RecoverRefusal::Memory)),
    }
}

/// Recovers a cluster of which the log was found on a volume, and makes its parts (`StartupXLOG` of `xlog.c`,
/// `StartupCLOG` of `clog.c`, `StartupSUBTRANS` of `subtrans.c`). There is one volume of each store for each bank, 1 to
/// 16, and there may be so many sessions, at most 64.
///
/// Where the pages tell what they hold, the volumes fit a log, which contracts alone see. The parts stand for lists
/// without entries, in a life that goes on behind the last record that was found: from the base at its next number,
/// which is one from the flushed number of that log to its end. So what was committed below it is committed. Of volumes
/// that don't tell what they hold, nothing is known to be committed. The log ends 62 bytes further than it was found:
/// behind a batch with the life's checkpoint.
pub fn open_old<L: LogDisk + Drop, P: PageDisk + Drop>(
    alloc: Global,
    rooms: &mut LifeRooms<P>,
    found: Found<L>,
    volumes: BankVolumes<P>,
    sessions: u32,
) -> Result<Parts<L, P>, (Volumes<L, P>, RecoverRefusal)>
    ghost kept: { KeptLog }
    requires some { 1 ≤ length volumes.xact.items }
    requires few { length volumes.xact.items ≤ 16 }
    requires as_many { (length volumes.subtrans.items ≡ length volumes.xact.items)
        × (length volumes.offsets.items ≡ length volumes.xact.items) × (length volumes.members.items ≡ length volumes.xact.items) }
    requires sessions { sessions ≤ 64 }
    requires fits { (log : L) × IsFound log found × MayGoOn L.LogDisk P.PageDisk kept (volumes_over log volumes) }
    ensures cluster { IfOk result (λ parts. (parts.cluster.banks ≡ length volumes.xact.items) × (parts.cluster.sessions ≡ sessions)) }
    ensures parts { IfOk result (λ parts. AreParts parts) }
    ensures start { IfOk result (λ parts. (parts.start.value ≡ new_life parts.cluster (behind P.tells kept (log_next found.log)) parts.locks.items)
        × (parts.cluster.base ≡ found.base) × (IsTrue P.tells → IsBaseAt kept (log_next found.log) parts.cluster.base)) }
    ensures counted { (log : L) → IsFound log found → IfOk result (λ parts. AreCounted L.LogDisk P.PageDisk log volumes
        parts.start.value.faults) }
    ensures end { IfOk result (λ parts. parts.start.value.gate ≡ log_end found.log + 62) }
    // That is a base from which a life may start, so the laws on its volumes hold of it (`recoverable`).
    ensures right { IsTrue P.tells → IfOk result (λ parts. BeganRight parts.start.value) }
    // After an error the volumes fit what a later recovery may go on from.
    ensures again { IsTrue P.tells → (log : L) → IsFound log found
        → IfErr result (λ e. LeavesLog L.LogDisk P.PageDisk (volumes_over log volumes) e.0 kept) }
    ensures refused { (log : L) → IsFound log found
        → IfErr result (λ e. IsRefusal L.LogDisk P.PageDisk (volumes_over log volumes) e.0 e.1) }
{
    let BankVolumes {
        xact,
        subtrans,
        offsets,
        members,
    } = volumes;
    match recover(&mut rooms.banks, found, xact, subtrans, offsets, members) {
        Ok(recovered) => {
            is_full_multi(&recovered.base);
            open_recovered(alloc, rooms, recovered, sessions)
        }
        Err(refused) => Err(refused),
    }
}
