//! How a life is opened over the volumes of a media.
ghost use Rattle.std.specs.Prelude.{◌≡◌, ◌≤◌, ℕ, false, IfErr, IfOk, IsTrue, OnErr, OnOk, length};
ghost use Rattle.disk_core.specs.Media.{HasBanks};
ghost use Rattle.disk_core.specs.declared.media.Volumes.{Volumes as Mounted};
ghost use Rattle.recoverable.specs.Fit.{KeptLog};
ghost use Rattle.replay_core.specs.Opened.{IsFoundNew};
ghost use Rattle.engine_host.specs.Opening.{IsCluster};
ghost use Rattle.engine_host.specs.Stores.{HaveEach};
ghost use Rattle.engine_life.specs.Lives.{FitsLog, IsNewLife};
ghost use Rattle.engine_life.specs.FirstLives.{IsFirstLife, MayBeginOver, MayMount, with_banks};
ghost use Rattle.engine_life.specs.NextLives.{StayFit, WhenRefused};
ghost use Rattle.engine_life.specs.Refusals.{IsNoLife, IsOfVolumes, IsUnopened};
ghost use Rattle.engine_life.specs.Reopening.{volumes_over};

use crate::begun::{begin_life, is_full_multi, new_aside, with_log};
use crate::life::{Aside, OpenLife};
use crate::old_life::begin_old;
use crate::refusal::{NoLife, refusal_of, unrecovered};
use disk_core::{LogDisk, Media, MountRefusal, PageDisk, Volumes};
use engine_host::{BankVolumes, Cluster, LifeRooms, open_new};
use replay_core::{FoundLog, find_log};
use std::alloc::Global;
use wal_core::WalLog;

// Begins a new cluster's life over a log without a record, which was found on a volume. After an error the volumes come
// back.
fn begin_new<L: LogDisk + Drop, P: PageDisk + Drop>(
    alloc: Global,
    rooms: &mut LifeRooms<P>,
    log: WalLog<L>,
    volumes: BankVolumes<P>,
    aside: Aside<P>,
    cluster: Cluster,
) -> Result<Box<OpenLife<L, P>>, (Volumes<L, P>, NoLife)>
    requires cluster { IsCluster cluster }
    requires banks { HaveEach cluster.banks volumes }
    requires found { (disk : L) × IsFoundNew disk log }
    ensures life { (disk : L) → IsFoundNew disk log → IfOk result (λ life. IsNewLife cluster (volumes_over disk volumes) life.value) }
    ensures refused { (disk : L) → IsFoundNew disk log
        → IfErr result (λ e. IsNoLife L.LogDisk P.PageDisk cluster (volumes_over disk volumes) e.0 e.1) }
{
    is_full_multi(&cluster.base);
    match open_new(alloc, rooms, log, volumes, cluster) {
        Ok(parts) => begin_life(alloc, rooms, parts, aside),
        Err((volumes, refusal)) => Err((volumes, refusal_of(refusal))),
    }
}

// Begins a life over mounted volumes: a new cluster's where the log has no record, and else one that goes on from it.
// After an error the volumes come back.
fn begin_over<L: LogDisk + Drop, P: PageDisk + Drop>(
    alloc: Global,
    rooms: &mut LifeRooms<P>,
    volumes: Volumes<L, P>,
    cluster: Cluster,
) -> Result<Box<OpenLife<L, P>>, (Volumes<L, P>, NoLife)>
    ghost kept: { KeptLog }
    requires cluster { IsCluster cluster }
    requires banks { HasBanks cluster.banks volumes }
    requires may { MayBeginOver L.LogDisk P.PageDisk kept volumes }
    ensures life { IfOk result (λ life. IsFirstLife kept cluster volumes life.value) }
    ensures again { IsTrue P.tells → IfErr result (λ e. FitsLog L.LogDisk P.PageDisk kept volumes
        → WhenRefused L.LogDisk P.PageDisk kept volumes e.0 e.1) }
    ensures refused { IfErr result (λ e. IsNoLife L.LogDisk P.PageDisk cluster volumes e.0 e.1) }
{
    let Ok(aside) = new_aside(alloc, rooms) else {
        return Err((volumes, NoLife::Memory));
    };
    let Volumes {
        log,
        xact,
        subtrans,
        offsets,
        members,
    } = volumes;
    let volumes = BankVolumes {
        xact,
        subtrans,
        offsets,
        members,
    };
    let found = match find_log(alloc, log) {
        Ok(found) => found,
        Err((log, refusal)) => return Err((with_log(log, volumes), unrecovered(refusal))),
    };
    match found {
        FoundLog::New(log) => begin_new(alloc, rooms, log, volumes, aside, cluster),
        FoundLog::Old(found) => begin_old(alloc, rooms, found, volumes, aside, cluster.sessions),
    }
}

// The cluster, with so many banks.
fn with_banks(cluster: &Cluster, banks: usize) -> Cluster
    requires cluster { IsCluster cluster.now }
    requires some { 1 ≤ banks }
    requires few { banks ≤ 16 }
    ensures is { result ≡ with_banks cluster.now banks }
    ensures cluster { IsCluster result }
{
    Cluster {
        base: cluster.base,
        banks: banks as u32,
        sessions: cluster.sessions,
    }
}

/// Opens a life over a media: mounts it, and makes the lock table over its volumes. Where the log has no record they
/// become those of a new cluster, which begins with the counters of `cluster`; else the cluster that is there is
/// recovered (`StartupXLOG` of `xlog.c`), and the life goes on behind the last record. There are as many banks as the
/// media gives, which are those of `cluster` where the media is new, and so many sessions as `cluster` says.
///
/// Where pages tell what they hold and the log has records, the volumes fit a log, which contracts alone see: from its
/// base at a number, from the flushed one to its end, the life goes on, so what was committed below that number is
/// committed.
///
/// After an error the media holds its volumes again: pages may be removed then, and a checkpoint written. Those of a
/// media that was used before, if they fitted the log, do still, or fit what a later recovery may go on from; where
/// memory was wanting nothing is said of that.
pub fn open_life<M: Media>(
    alloc: Global,
    rooms: &mut LifeRooms<M::Pages>,
    media: &mut M,
    cluster: Cluster,
) -> Result<Box<OpenLife<M::Log, M::Pages>>, NoLife>
    ghost kept: { KeptLog }
    requires cluster { IsCluster cluster }
    requires idle { IsTrue (M.is_idle media.old) }
    requires may { (volumes : Mounted M.Log M.Pages)
        → MayMount (M.is_new media.old) (M.begins media.old) (M.gives media.old) cluster.banks volumes
        → MayBeginOver M.Log.LogDisk M.Pages.PageDisk kept volumes }
    ensures life { IfOk result (λ life. (volumes : Mounted M.Log M.Pages)
        × MayMount (M.is_new media.old) (M.begins media.old) (M.gives media.old) cluster.banks volumes
        × IsFirstLife kept (with_banks cluster (length volumes.xact.items)) volumes life.value) }
    ensures mounted { OnOk result (M.is_idle media.new ≡ false) }
    ensures idle { OnErr result (IsTrue (M.is_idle media.new)) }
    ensures count { M.faults media.old ≤ M.faults media.new }
    ensures used { IfErr result (λ refusal. IsOfVolumes refusal → M.is_new media.new ≡ false) }
    ensures used_before { M.is_new media.old ≡ false → OnErr result (M.is_new media.new ≡ false) }
    ensures again { IsTrue M.Pages.tells → M.is_new media.old ≡ false → IfErr result (λ refusal. StayFit M.Log.LogDisk
        M.Pages.PageDisk kept (M.gives media.old) (M.gives media.new) refusal) }
    ensures refused { IfErr result (λ refusal. IsUnopened M.Log.LogDisk M.Pages.PageDisk cluster
        (MayMount (M.is_new media.old) (M.begins media.old) (M.gives media.old)) (M.faults media.old) (M.faults media.new)
        (M.gives media.new) refusal) }
{
    let volumes = match media.mount(cluster.banks) {
        Ok(volumes) => volumes,
        Err(MountRefusal::Failed) => return Err(NoLife::Device),
        Err(MountRefusal::Memory) => return Err(NoLife::Memory),
    };
    let cluster = with_banks(&cluster, volumes.xact.len());
    match begin_over(alloc, rooms, volumes, cluster) {
        Ok(life) => Ok(life),
        Err((volumes, refusal)) => {
            media.rest(volumes);
            Err(refusal)
        }
    }
}
