//! Runs a part of a script in a life that is open, and closes the life.
ghost use Rattle.std.specs.Prelude.{◌≡◌, ℕ, List, OnOk, length};
ghost use Rattle.disk_core.specs.declared.media.Volumes.{Volumes};
ghost use Rattle.engine_host.specs.declared.cluster.Cluster.{Cluster};
ghost use Rattle.engine_host.specs.Opening.{Beginning};
ghost use Rattle.session_run.specs.OneLife.{HasRunLife, IsOpened, MayRunIn};
ghost use Rattle.session_run.specs.Parts.{IsTakenPart};

use crate::laws::life_ends;
use crate::rounds::run_rounds;
use disk_core::{LogDisk, PageDisk};
use engine_host::LifeRooms;
use engine_life::{ClosedLife, OpenLife, close_life};
use engine_parts::Gate;
use host_calls::{has_64_bits, pages_read_an_image, reads_an_image};
use script_rounds::{LineKeeper, RoundThreads, SparePlan};
use session_lang::Items;
use std::alloc::Global;
use std::sync::Wait;
use std::thread::Threads;
use tx_model::{Memory, NameList};

/// Runs a part of a script in a life that is open, closes the life, and keeps its lines: its rounds one after another, the
/// sessions of a round on such threads, and the dumps and checkpoints between them.
pub fn run_life<
    K: LineKeeper + Send + Drop,
    L: LogDisk + Send + Sync + Drop,
    P: PageDisk + Send + Sync + Drop,
>(
    rt: &(impl Threads + Wait + Sync),
    alloc: Global,
    life: OpenLife<L, P>,
    rooms: &mut LifeRooms<P>,
    spare: &mut SparePlan,
    names: &NameList,
    part: Items,
    kept: &mut K,
    threads: RoundThreads,
    gate: &(impl Gate + Sync),
) -> (ClosedLife<L, P>, Result<(), Memory>)
    requires taken { IsTakenPart (length names.now) part }
    requires may { MayRunIn (length names.now) life }
    ensures ran { (c : Cluster) (b : Beginning) (faults : List ℕ) (mounted : Volumes L P)
        → IsOpened c b faults mounted life
        → OnOk result.1 (HasRunLife L.LogDisk P.PageDisk K.LineKeeper c b mounted names.now part.entry kept.old kept.new result.0) }
{
    let mut life = life;
    life_ends(&life.hall);
    let hall = &life.hall;
    let host = &mut life.host;
    let ran = run_rounds(
        rt, alloc, hall, host, spare, names, part, kept, threads, gate,
    );
    let closed = close_life(life, rooms);
    has_64_bits(closed.log.next());
    has_64_bits(closed.log.end());
    reads_an_image(&closed.log);
    pages_read_an_image::<P>();
    (closed, ran)
}
