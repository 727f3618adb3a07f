//! A life that goes on from a log with records.
ghost use Rattle.std.specs.Prelude.{◌≤◌, IfErr, IfOk, IsTrue, length};
ghost use Rattle.recoverable.specs.Fit.{KeptLog};
ghost use Rattle.replay_core.specs.Opened.{IsFound};
ghost use Rattle.engine_host.specs.Stores.{HaveEach};
ghost use Rattle.engine_host.specs.declared.cluster.Cluster.{Cluster};
ghost use Rattle.engine_life.specs.NextLives.{GoesOnLife, MayGoOn, WhenRefused};
ghost use Rattle.engine_life.specs.Refusals.{IsNoLife};
ghost use Rattle.engine_life.specs.Reopening.{volumes_over};

use crate::begun::begin_life;
use crate::life::{Aside, OpenLife};
use crate::old_parts::open_old;
use crate::refusal::{NoLife, unrecovered};
use disk_core::{LogDisk, PageDisk, Volumes};
use engine_host::{BankVolumes, LifeRooms};
use replay_core::Found;
use std::alloc::Global;

// Goes on from a log that was found on a volume. After an error the volumes come back.
pub(crate) fn begin_old<L: LogDisk + Drop, P: PageDisk + Drop>(
    alloc: Global,
    rooms: &mut LifeRooms<P>,
    found: Found<L>,
    volumes: BankVolumes<P>,
    aside: Aside<P>,
    sessions: u32,
) -> Result<Box<OpenLife<L, P>>, (Volumes<L, P>, NoLife)>
    ghost kept: { KeptLog }
    requires some { 1 ≤ length volumes.xact.items }
    requires few { length volumes.xact.items ≤ 16 }
    requires as_many { HaveEach (length volumes.xact.items) volumes }
    requires sessions { sessions ≤ 64 }
    requires fits { (log : L) × IsFound log found × MayGoOn L.LogDisk P.PageDisk kept (volumes_over log volumes) }
    ensures life { (log : L) → IsFound log found → IfOk result (λ life. GoesOnLife kept sessions (volumes_over log volumes) life.value) }
    ensures again { IsTrue P.tells → (log : L) → IsFound log found
        → IfErr result (λ e. WhenRefused L.LogDisk P.PageDisk kept (volumes_over log volumes) e.0 e.1) }
    ensures refused { (log : L) → IsFound log found → (fresh : Cluster)
        → IfErr result (λ e. IsNoLife L.LogDisk P.PageDisk fresh (volumes_over log volumes) e.0 e.1) }
{
    match open_old(alloc, rooms, found, volumes, sessions) {
        Ok(parts) => begin_life(alloc, rooms, parts, aside),
        Err((volumes, refusal)) => Err((volumes, unrecovered(refusal))),
    }
}
