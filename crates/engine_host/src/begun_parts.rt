//! The parts of an engine over a log that is begun.
ghost use Rattle.std.specs.Prelude.{◌≡◌, [], false, IfErr, IfOk, IsTrue};
ghost use Rattle.wal_core.specs.LogViews.{log_disk, log_end};
ghost use Rattle.engine_parts.specs.Sessions.{AreGivenBefore};
ghost use Rattle.engine_host.specs.Counted.{AreCounted};
ghost use Rattle.engine_host.specs.Opening.{AreParts, Beginning, IsBegunLog, IsCluster, ShowBeginning, life_from, new_life};
ghost use Rattle.engine_host.specs.Stores.{HaveEach, Store, banks_of, volumes_in};

use crate::building::{add_banks, first_locks, gather, taken_apart, with_log};
use crate::cluster::{BankVolumes, Cluster, Parts};
use crate::rooms::LifeRooms;
use disk_core::{LogDisk, PageDisk, Volumes};
use std::alloc::Global;
use wal_core::WalLog;

/// Makes the parts of an engine over a log that is begun and the volumes of its banks. Their pages show what the life
/// begins with, as every crash would leave them; none is removed. There is a volume of each store for each bank. The
/// parts stand for lists without entries, in a life that begins with the volumes' counts of faults, and where the log
/// ends.
///
/// Only memory may be wanting. Then the volumes come back as they were.
pub fn open_begun<L: LogDisk + Drop, P: PageDisk + Drop>(
    alloc: Global,
    rooms: &mut LifeRooms<P>,
    log: WalLog<L>,
    volumes: BankVolumes<P>,
    cluster: Cluster,
) -> Result<Parts<L, P>, Volumes<L, P>>
    ghost begins: { Beginning }
    requires cluster { IsCluster cluster }
    requires volumes { HaveEach cluster.banks volumes }
    requires before { AreGivenBefore (life_from cluster begins []) }
    requires log { IsBegunLog cluster begins log }
    requires shown { IsTrue P.tells → ShowBeginning P.PageDisk cluster begins false 0 volumes }
    ensures cluster { IfOk result (λ parts. parts.cluster ≡ cluster) }
    ensures parts { IfOk result (λ parts. AreParts parts) }
    ensures start { IfOk result (λ parts. parts.start.value ≡ new_life cluster begins parts.locks.items) }
    ensures end { IfOk result (λ parts. parts.start.value.gate ≡ log_end log) }
    ensures counted { IfOk result (λ parts. AreCounted L.LogDisk P.PageDisk (log_disk log) volumes parts.start.value.faults) }
    ensures kept { IfErr result (λ back. (back.log ≡ log_disk log) × ((k : Store) → (volumes_in k (banks_of back)).items ≡ (volumes_in k volumes).items)) }
{
    let mut volumes = volumes;
    let log = match Box::new(alloc, log) {
        Ok(log) => log,
        Err(lacking) => return Err(with_log(lacking.value.into_disk(), volumes)),
    };
    let mut locks = match first_locks(alloc, &cluster) {
        Ok(locks) => locks,
        Err(_) => return Err(with_log(Box::into_inner(log).into_disk(), volumes)),
    };
    if let Err(_) = add_banks(&mut rooms.banks, &mut locks, &mut volumes, &cluster, false) {
        return Err(taken_apart(&mut rooms.banks, log, locks, volumes));
    }
    rooms.keep_vectors(volumes);
    Ok(gather(cluster, log, locks))
}
