//! What a life leaves.
ghost use Rattle.std.specs.Prelude.{◌≡◌, [], IsTrue};
ghost use Rattle.hall.specs.Calls.{start_of, view};
ghost use Rattle.notes.specs.Lists.{at};
ghost use Rattle.tx_core.specs.EngineInvariant.{EngineInvariant};
ghost use Rattle.tx_core.specs.Entries.{AreFewIds, history};
ghost use Rattle.tx_core.specs.Locks.{log_lock};
ghost use Rattle.tx_core.specs.MultiEntries.{AreFewMultis, multi_history};
ghost use Rattle.recoverable.specs.Whole.{BeganRight};
ghost use Rattle.wal_core.specs.LogViews.{log_disk, log_end};
ghost use Rattle.engine_parts.specs.Begins.{BeginsAsAsked};
ghost use Rattle.engine_parts.specs.LogTail.{tail_of};
ghost use Rattle.engine_parts.specs.Parts.{IsLogOf};
ghost use Rattle.engine_host.specs.Hosts.{HoldsAllBut, IsHost};
ghost use Rattle.engine_life.specs.Lives.{EndFit, HaveCountedTold, HaveFollowed, HaveFollowedMultis, HaveVolumes, volumes_left};

use crate::life::{Aside, OpenLife};
use disk_core::{LogDisk, PageDisk, Volumes};
use engine_host::{BankVolumes, LifeRooms, Parts, TakenApart, close, take_apart};
use multi_store::MultiGen;
use tx_events::EventList;
use wal_core::WalLog;

/// What a life leaves: its log, its history, its generator of multixacts with theirs, and the other volumes of the
/// media.
pub struct ClosedLife<L: LogDisk, P> {
    pub log: WalLog<L>,
    pub events: EventList,
    pub multis: Box<MultiGen>,
    xact: Vec<P>,
    subtrans: Vec<P>,
    offsets: Vec<P>,
    members: Vec<P>,
}

/// Closes a life whose sessions are all dismissed. Its history and its log are those of the lists that the host has
/// seen, which are all that was done, and of which the engine invariant holds; so is the history of its multixacts.
/// Each bank has its four volumes. Each of these has counted at least the faults that its list tells, and a crash would
/// leave of each of pg_xact, of the offsets and of the members what its list allows. Takes no memory.
#[inline(always)]
pub fn close_life<L: LogDisk + Drop, P: PageDisk + Drop>(
    life: OpenLife<L, P>,
    rooms: &mut LifeRooms<P>,
) -> ClosedLife<L, P>
    requires host { IsHost life.hall life.host }
    requires all { HoldsAllBut life.host [] }
    ensures events { result.events ≡ history (view life.host.pass).seen }
    ensures multis { result.multis.value.events ≡ multi_history (view life.host.pass).seen }
    ensures log { IsLogOf (start_of life.hall) result.log (at (view life.host.pass).seen log_lock) }
    // Its batches end where the list says: that is the place which a report tells.
    ensures end { log_end result.log ≡ (tail_of (start_of life.hall) (at (view life.host.pass).seen log_lock)).gate }
    // With which record a crash leaves its volume: so the next life's recovery begins there.
    ensures begins { IsTrue L.tells → BeginsAsAsked (start_of life.hall) (at (view life.host.pass).seen log_lock) (L.images (log_disk result.log)) }
    ensures kept { EngineInvariant (start_of life.hall) (view life.host.pass).seen }
    ensures banks { HaveVolumes (start_of life.hall).banks (volumes_left result) }
    ensures counted { HaveCountedTold L.LogDisk P.PageDisk (start_of life.hall) (view life.host.pass).seen (volumes_left result) }
    // In a life of fewer than 2,900,000 ids.
    ensures states { IsTrue P.tells → AreFewIds (view life.host.pass).seen → HaveFollowed P.PageDisk
        (start_of life.hall) (view life.host.pass).seen (volumes_left result).xact.items }
    // In one of fewer than 2,900,000 multixacts.
    ensures multi_pages { IsTrue P.tells → AreFewMultis (view life.host.pass).seen → HaveFollowedMultis P.PageDisk
        (start_of life.hall) (view life.host.pass).seen (volumes_left result) }
    // So a recovery may begin from what it leaves, where it began with a base from which a life may start.
    ensures fit { IsTrue L.tells → IsTrue P.tells → BeganRight (start_of life.hall) → AreFewIds (view life.host.pass).seen
        → AreFewMultis (view life.host.pass).seen → EndFit L.LogDisk P.PageDisk (start_of life.hall)
        (view life.host.pass).seen (volumes_left result) }
{
    let OpenLife { hall, host, aside } = life;
    let parts = close(hall, host);
    let Parts {
        cluster: _,
        locks,
        start: _,
    } = parts;
    let Aside { room } = aside;
    let TakenApart {
        log,
        table,
        multis,
        volumes,
    } = take_apart(rooms, locks, room);
    let BankVolumes {
        xact,
        subtrans,
        offsets,
        members,
    } = volumes;
    let log = Box::into_inner(log);
    let table = Box::into_inner(table);
    let (_, events) = table.into_parts();
    ClosedLife {
        log,
        events,
        multis,
        xact,
        subtrans,
        offsets,
        members,
    }
}

impl<L: LogDisk + Drop, P: PageDisk + Drop> ClosedLife<L, P> {
    ghost use Rattle.std.specs.Prelude.{◌≡◌};
    ghost use Rattle.engine_life.specs.Lives.{number_of, volumes_left};

    /// The number of the checkpoint with which the life began: that of the first record which it appended.
    pub fn number(&self) -> u64
        ensures { result ≡ number_of self.now }
    {
        self.log.next().saturating_sub(self.log.recs().len() as u64)
    }

    /// The volumes, each in its place, which the media takes back.
    pub fn into_volumes(self) -> Volumes<L, P>
        ensures { result ≡ volumes_left self }
    {
        let (volumes, _, _) = self.into_histories();
        volumes
    }

    // With the histories. The log's records go.
    pub(crate) fn into_histories(self) -> (Volumes<L, P>, EventList, Box<MultiGen>)
        ensures volumes { result.0 ≡ volumes_left self }
        ensures events { result.1 ≡ self.events }
        ensures multis { result.2 ≡ self.multis }
    {
        let ClosedLife {
            log,
            events,
            multis,
            xact,
            subtrans,
            offsets,
            members,
        } = self;
        let volumes = Volumes {
            log: log.into_disk(),
            xact,
            subtrans,
            offsets,
            members,
        };
        (volumes, events, multis)
    }
}
