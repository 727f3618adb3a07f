//! The whole of a recovery.
ghost use Rattle.std.specs.Prelude.{◌≡◌, ◌+◌, ◌≤◌, IfErr, IfOk, IsTrue, length};
ghost use Rattle.recoverable.specs.Fit.{KeptLog};
ghost use Rattle.tx_events.specs.LifeBase.{committed_in};
ghost use Rattle.replay_core.specs.Redo.{AreNear};
ghost use Rattle.replay_core.specs.Restore.{IsWindow};
ghost use Rattle.wal_core.specs.LogViews.{log_disk, log_end, log_first, log_next};
ghost use Rattle.replay_core.specs.Banks.{NoCountFell};
ghost use Rattle.replay_core.specs.Begun.{AreEmpty, AreOnDisk, IsSettled};
ghost use Rattle.replay_core.specs.Moments.{FitThroughout, volumes_after};
ghost use Rattle.replay_core.specs.Opened.{IsFound, IsOpen};
ghost use Rattle.replay_core.specs.PageVolumes.{AreFew};
ghost use Rattle.replay_core.specs.Refused.{IsRefusal, volumes_of};
ghost use Rattle.replay_core.specs.Replay.{Replays};
ghost use Rattle.replay_core.specs.Spans.{AreMultisInReach};
ghost use Rattle.recoverable.specs.Clusters.{Fit};
ghost use Rattle.replay_core.specs.Volumes.{LeavesFit, RecoversLog};

use crate::cluster::Recovered;
use crate::found::Found;
use crate::pages::restore_pages;
use crate::refusal::RecoverRefusal;
use crate::settle::settle;
use crate::volumes::PageVolumes;
use disk_core::{LogDisk, PageDisk, Volumes};
use slru_bank::BankRooms;
use tx_events::{Counters, Rec};
use wal_core::WalLog;

/// Recovers a cluster of which the log was found on a volume (`StartupXLOG`): the commits among its records are put on the
/// pages of pg_xact, and what lies past the next id is cleared; its multixacts are put on the pages of the offsets and the
/// members, and what no record tells of is cleared; pg_subtrans is emptied; then a checkpoint is flushed, alone in its
/// batch, and the log before it forgotten. After an error the volumes come back, and may be recovered again.
///
/// There is one volume of each store for each bank, 1 to 16.
pub fn recover<L: LogDisk + Drop, P: PageDisk + Drop>(
    rooms: &mut BankRooms,
    found: Found<L>,
    xact: Vec<P>,
    subtrans: Vec<P>,
    offsets: Vec<P>,
    members: Vec<P>,
) -> Result<Recovered<L, P>, (Volumes<L, P>, RecoverRefusal)>
    requires some { 1 ≤ length xact.items }
    requires few { length xact.items ≤ 16 }
    requires as_many { (length subtrans.items ≡ length xact.items) × (length offsets.items ≡ length xact.items)
        × (length members.items ≡ length xact.items) }
    requires found { (volume : L) × IsFound volume found }
    // From volumes that fit a log the base at a number from the flushed one to its end is answered, and the volumes are
    // left as a life may begin with them. Any later recovery from there answers the same, and the log keeps the list that
    // it goes by.
    ensures recovers { (volume : L) → IsFound volume found → IsTrue L.tells → IsTrue P.tells → IfOk result (λ r. (log : KeptLog)
        → Fit L.LogDisk P.PageDisk log volume xact.items offsets.items members.items
        → RecoversLog L.LogDisk P.PageDisk volume xact.items r.log r.xact.items r.offsets.items r.members.items r.from r.base log) }
    // After an error they fit, and a later recovery answers what this one might have answered.
    ensures again { (volume : L) → IsFound volume found → IsTrue L.tells → IsTrue P.tells → IfErr result (λ e. (log : KeptLog)
        → Fit L.LogDisk P.PageDisk log volume xact.items offsets.items members.items
        → LeavesFit L.LogDisk P.PageDisk xact.items e.0.log e.0.xact.items e.0.offsets.items e.0.members.items log) }
    // At every moment of each volume, whatever is answered, a crash leaves what fits, and a later recovery answers what this
    // one might have answered: while the log begins as it was found, with the pages of any moments; and however it begins,
    // with the pages as they come back.
    ensures moments { (volume : L) → IsFound volume found → IsTrue L.tells → IsTrue P.tells → (log : KeptLog)
        → Fit L.LogDisk P.PageDisk log volume xact.items offsets.items members.items
        → FitThroughout L.LogDisk P.PageDisk (volumes_of (log_disk found.log) xact subtrans offsets members) (volumes_after L.LogDisk P.PageDisk result) (log_first found.log) log }
    // The base has the counters behind all records that were found, and the checkpoint the number that comes next.
    ensures all { IfOk result (λ r. (r.from ≡ log_next found.log) × (r.base ≡ found.base)) }
    ensures log { IfOk result (λ r. IsSettled r.from r.base r.log) }
    // The log ends behind one more batch, which has that checkpoint alone.
    ensures end { IfOk result (λ r. log_end r.log ≡ log_end found.log + 62) }
    ensures states { IsTrue P.tells → IfOk result (λ r. AreOnDisk P.PageDisk r.xact.items) }
    ensures parents { IsTrue P.tells → IfOk result (λ r. AreEmpty P.PageDisk r.subtrans.items) }
    ensures multis { IsTrue P.tells → IfOk result (λ r. AreOnDisk P.PageDisk r.offsets.items × AreOnDisk P.PageDisk r.members.items) }
    ensures banks { IfOk result (λ r. (length r.xact.items ≡ length xact.items) × (length r.subtrans.items ≡ length subtrans.items)
        × (length r.offsets.items ≡ length offsets.items) × (length r.members.items ≡ length members.items)) }
    ensures banks_err { IfErr result (λ e. (length e.0.xact.items ≡ length xact.items) × (length e.0.subtrans.items ≡ length subtrans.items)
        × (length e.0.offsets.items ≡ length offsets.items) × (length e.0.members.items ≡ length members.items)) }
    ensures counted { (volume : L) → IsFound volume found → IfOk result (λ r. (L.faults volume ≤ L.faults (log_disk r.log))
        × NoCountFell P.PageDisk xact.items r.xact.items × NoCountFell P.PageDisk subtrans.items r.subtrans.items
        × NoCountFell P.PageDisk offsets.items r.offsets.items × NoCountFell P.PageDisk members.items r.members.items) }
    // Each refusal has its cause.
    ensures refused { (volume : L) → IsFound volume found
        → IfErr result (λ e. IsRefusal L.LogDisk P.PageDisk (volumes_of volume xact subtrans offsets members) e.0 e.1) }
{
    let mut pages = PageVolumes {
        xact,
        subtrans,
        offsets,
        members,
    };
    let Found { log, recs, base } = found;
    let mut log = log;
    let from = log.next();
    if let Err(refusal) = replay(rooms, &mut log, &mut pages, recs.items(), &base) {
        return Err((with_log(log.into_disk(), pages), refusal));
    }
    Ok(begun(log, pages, from, &base))
}

// What a life begins from.
fn begun<L: LogDisk, P: Drop>(
    log: WalLog<L>,
    pages: PageVolumes<P>,
    from: u64,
    base: &Counters,
) -> Recovered<L, P>
    ensures log { result.log ≡ log }
    ensures pages { (result.xact ≡ pages.xact) × (result.subtrans ≡ pages.subtrans) × (result.offsets ≡ pages.offsets) × (result.members ≡ pages.members) }
    ensures from { result.from ≡ from }
    ensures base { result.base ≡ base.now }
{
    let PageVolumes {
        xact,
        subtrans,
        offsets,
        members,
    } = pages;
    Recovered {
        log,
        xact,
        subtrans,
        offsets,
        members,
        from,
        base: *base,
    }
}

// The volumes that weren't recovered.
fn with_log<L: Drop, P: Drop>(log: L, pages: PageVolumes<P>) -> Volumes<L, P>
    ensures log { result.log ≡ log }
    ensures pages { (result.xact ≡ pages.xact) × (result.subtrans ≡ pages.subtrans) × (result.offsets ≡ pages.offsets) × (result.members ≡ pages.members) }
{
    let PageVolumes {
        xact,
        subtrans,
        offsets,
        members,
    } = pages;
    Volumes {
        log,
        xact,
        subtrans,
        offsets,
        members,
    }
}

// The pages, and then the checkpoint.
fn replay<L: LogDisk, P: PageDisk + Drop>(
    rooms: &mut BankRooms,
    log: &mut WalLog<L>,
    pages: &mut PageVolumes<P>,
    recs: &[Rec],
    base: &Counters,
) -> Result<(), RecoverRefusal>
    requires few { AreFew pages.old }
    requires open { IsOpen base.now log.old }
    requires near { AreNear base.now.oldest (committed_in recs.now) }
    requires window { IsWindow base.now.oldest base.now.next }
    requires multis { AreMultisInReach recs.now base.now }
    ensures { Replays P.PageDisk recs.now base.now log.old log.new pages.old pages.new result }
{
    restore_pages(rooms, pages, recs, base)?;
    settle(*pages.xact.allocator(), log, *base)
}
