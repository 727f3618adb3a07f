//! The parts of a new engine.
ghost use Rattle.std.specs.Prelude.{◌≡◌, ◌+◌, IfErr, IfOk};
ghost use Rattle.wal_core.specs.LogViews.{log_disk, log_end};
ghost use Rattle.engine_host.specs.Counted.{AreCounted};
ghost use Rattle.engine_host.specs.Opening.{AreParts, IsCluster, IsEmptyLog, new_life, nothing_before};
ghost use Rattle.engine_host.specs.Refused.{IsRefusal};
ghost use Rattle.engine_host.specs.Stores.{HaveEach};

use crate::building::{add_banks, first_locks, gather, taken_apart, with_log};
use crate::cluster::{BankVolumes, Cluster, Parts};
use crate::first_log::begin_log;
use crate::refusal::OpenRefusal;
use crate::rooms::LifeRooms;
use disk_core::{LogDisk, PageDisk, Volumes};
use std::alloc::Global;
use wal_core::WalLog;

/// Makes the parts of a new cluster over a log without a record and the volumes of its banks (`BootStrapXLOG` of
/// `xlog.c`, `BootStrapCLOG` of `clog.c`, `BootStrapSUBTRANS` of `subtrans.c`, `BootStrapMultiXact` of `multixact.c`).
/// All pages of the page volumes are removed. The log's first record, which is on disk then, is a checkpoint of the
/// base. There is a volume of each store for each bank.
///
/// The parts stand for lists without entries, in a life that begins with the volumes' counts of faults, which aren't
/// below what they were, and with a log that ends 62 bytes further: behind a batch with that checkpoint. After an error
/// the volumes come back, in the order of their banks; pages may be removed then, and the checkpoint written.
pub fn open_new<L: LogDisk + Drop, P: PageDisk + Drop>(
    alloc: Global,
    rooms: &mut LifeRooms<P>,
    log: WalLog<L>,
    volumes: BankVolumes<P>,
    cluster: Cluster,
) -> Result<Parts<L, P>, (Volumes<L, P>, OpenRefusal)>
    requires cluster { IsCluster cluster }
    requires volumes { HaveEach cluster.banks volumes }
    requires new { IsEmptyLog log }
    ensures cluster { IfOk result (λ parts. parts.cluster ≡ cluster) }
    ensures parts { IfOk result (λ parts. AreParts parts) }
    ensures start { IfOk result (λ parts. parts.start.value ≡ new_life cluster nothing_before parts.locks.items) }
    ensures end { IfOk result (λ parts. parts.start.value.gate ≡ log_end log + 62) }
    ensures counted { IfOk result (λ parts. AreCounted L.LogDisk P.PageDisk (log_disk log) volumes parts.start.value.faults) }
    ensures refused { IfErr result (λ e. IsRefusal P.PageDisk cluster log volumes e.0 e.1) }
{
    let mut volumes = volumes;
    let mut log = match Box::new(alloc, log) {
        Ok(log) => log,
        Err(lacking) => return Err((
            with_log(lacking.value.into_disk(), volumes),
            OpenRefusal::Memory,
        )),
    };
    let mut locks = match first_locks(alloc, &cluster) {
        Ok(locks) => locks,
        Err(refusal) => return Err((with_log(Box::into_inner(log).into_disk(), volumes), refusal)),
    };
    if let Err(refusal) = add_banks(&mut rooms.banks, &mut locks, &mut volumes, &cluster, true) {
        return Err((taken_apart(&mut rooms.banks, log, locks, volumes), refusal));
    }
    let fresh = &mut *log;
    if let Err(refusal) = begin_log(alloc, fresh, &cluster) {
        return Err((taken_apart(&mut rooms.banks, log, locks, volumes), refusal));
    }
    rooms.keep_vectors(volumes);
    Ok(gather(cluster, log, locks))
}
