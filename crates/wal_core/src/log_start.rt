// Opening the log of a volume (the reading part of StartupXLOG in src/backend/access/transam/xlog.c).
ghost use Rattle.std.specs.Prelude.{◌≡◌, ◌≢◌, ◌⊎◌, ◌+◌, ◌≤◌, ◌<◌, [], ◌∷◌, ℕ, length, IsTrue, IsSome, IfOk, IfErr, OnOk, Ok, Err, None};
ghost use Rattle.disk_core.specs.Faults.{HasRisen, CountsFault};
ghost use Rattle.disk_core.specs.Images.{Only, LeavesOnly};
ghost use Rattle.disk_core.specs.Volume.{Volume, overlaid};
ghost use Rattle.wal_core.specs.declared.refusal.LogRefusal.TheVariants.{LogDown, LogFault, Full, Damaged};
ghost use Rattle.wal_core.specs.LogContents.{history_with, history_of};
ghost use Rattle.wal_core.specs.Crash.{IsWritten};
ghost use Rattle.wal_core.specs.Opening.{opened, walked, behind_gate};
ghost use Rattle.wal_core.specs.Log.{OpensOnceClosed, IsReady, OpensAs};
ghost use Rattle.wal_core.specs.LogViews.{log_disk, log_recs, log_next, log_flushed, log_end, log_counters, log_down};

use crate::batch_write::write_and_sync;
use crate::log_contents::{LogContents, read_log};
use crate::pending_batch::no_batch;
use crate::refusal::LogRefusal;
use crate::wal_log::WalLog;
use disk_core::{Failed, LogDisk};
use std::alloc::Global;
use tx_events::RecList;

/// A log that was started, the records that the volume has, and the number of the first.
#[derive(Drop)]
pub struct Started<D: LogDisk> {
    pub log: WalLog<D>,
    pub recs: RecList,
    pub first: u64,
}

// Puts a closed gate at the end, where there is none yet. A flush writes from behind the gate on: with no byte at the gate
// it would leave a hole, which a crash may fill with an open gate before a batch that isn't there.
fn close_gate<D: LogDisk>(disk: &mut D, found: &LogContents) -> Result<(), Failed>
    requires once_closed { IsTrue D.tells → OpensOnceClosed found.now.gate found.now.counters (found.now.first + length found.now.recs) (D.reads disk.old) }
    requires synced { IsTrue D.tells → Only (D.reads disk.old) (D.images disk.old) }
    requires read { IsTrue D.tells → opened (D.reads disk.old) ≡ Ok (record { history = history_of found.now; gate = found.now.gate }) }
    requires reach { IsTrue D.tells → found.now.length ≡ length (D.reads disk.old).bytes }
    ensures opens { IsTrue D.tells → OnOk result (opened (D.reads disk.new) ≡ opened (D.reads disk.old)) }
    ensures ready { IsTrue D.tells → OnOk result (IsReady found.now.gate [] found.now.counters (found.now.first + length found.now.recs) (D.reads disk.new)) }
    ensures synced { IsTrue D.tells → OnOk result (Only (D.reads disk.new) (D.images disk.new)) }
    ensures start { IsTrue D.tells → (D.reads disk.new).start ≡ (D.reads disk.old).start }
    ensures batches { IsTrue D.tells → OnOk result (IsSome found.now.counters → (walked (D.reads disk.new)).bodies ≡ (walked (D.reads disk.old)).bodies) }
    // Where a closed gate stood at the end of an old log, nothing is written.
    ensures any_moment { IsTrue D.tells → (IsSome found.now.counters → found.now.gate < length (D.reads disk.old).bytes)
        → LeavesOnly D.moment D.left_at disk.old disk.new (OpensAs (D.reads disk.old)) }
    // Nothing is written but a byte at the gate.
    ensures written { IsTrue D.tells → LeavesOnly D.moment D.left_at disk.old disk.new (IsWritten (D.images disk.old) found.now.gate 1) }
    // The volume reads as before, or has a byte 0 at the gate.
    ensures closed { IsTrue D.tells → OnOk result ((D.reads disk.new ≡ D.reads disk.old) ⊎ ((D.reads disk.new).bytes ≡ overlaid (D.reads disk.old).bytes found.now.gate (0 ∷ []))) }
    ensures cause { CountsFault result (D.faults disk.old) (D.faults disk.new) }
{
    let least = if found.counters.is_none() { 1 } else { 0 };
    if found.length > least && found.length > found.gate {
        return Ok(());
    }
    write_and_sync(disk, found.gate, &[0])
}

impl<D: LogDisk> WalLog<D> {
    ghost use Rattle.std.specs.Prelude.{◌≡◌, ◌≢◌, ◌⊎◌, ◌+◌, ◌≤◌, [], ◌∷◌, ℕ, length, IsTrue, IfOk, IfErr, Ok, Err, None};
    ghost use Rattle.disk_core.specs.Volume.{Volume, overlaid};
    ghost use Rattle.disk_core.specs.Faults.{HasRisen};
    ghost use Rattle.disk_core.specs.Images.{Only, LeavesOnly};
    ghost use Rattle.wal_core.specs.declared.refusal.LogRefusal.TheVariants.{LogDown, LogFault, Full, Damaged};
    ghost use Rattle.wal_core.specs.LogContents.{history_with, ComesTo};
    ghost use Rattle.wal_core.specs.Crash.{IsWritten};
    ghost use Rattle.wal_core.specs.Opening.{Opened, opened};
    ghost use Rattle.wal_core.specs.LastBatch.{last_batch};
    ghost use Rattle.wal_core.specs.Checkpoint.{IsCheckpointIn};
    ghost use Rattle.wal_core.specs.Log.{EndsWithin, OpensAsBefore};
    ghost use Rattle.wal_core.specs.LogViews.{log_disk, log_recs, log_next, log_flushed, log_end, log_counters, log_down, log_start, log_first, log_checkpoint, KeepsAll};

    /// Opens the log of a volume: syncs, and reads its records. Nothing is pending. Where a volume has no closed gate
    /// yet behind its batches, a byte 0 is written there and synced. An error hands the disk back: `LogFault`, `Damaged`
    /// with the place of the first gate at which the volume is no lawful log, or `Memory`.
    pub fn start(alloc: Global, disk: D) -> Result<Started<D>, (D, LogRefusal)>
        // What the volume has is what it opens to, and it still opens so.
        ensures history { IsTrue D.tells → IfOk result (λ s. opened (D.reads disk) ≡ Ok (record { history = history_with s.first s.recs (log_counters s.log); gate = log_end s.log })) }
        ensures opens { IsTrue D.tells → IfOk result (λ s. opened (D.reads (log_disk s.log)) ≡ opened (D.reads disk)) }
        ensures closed { IsTrue D.tells → IfOk result (λ s. (D.reads (log_disk s.log) ≡ D.reads disk) ⊎ ((D.reads (log_disk s.log)).bytes ≡ overlaid (D.reads disk).bytes (log_end s.log) (0 ∷ []))) }
        ensures synced { IsTrue D.tells → IfOk result (λ s. Only (D.reads (log_disk s.log)) (D.images (log_disk s.log))) }
        ensures next { IfOk result (λ s. log_next s.log ≡ s.first + length s.recs) }
        ensures clean { IfOk result (λ s. (log_recs s.log ≡ []) × (log_flushed s.log ≡ log_next s.log) × (log_down s.log ≡ None)) }
        ensures start { IsTrue D.tells → IfOk result (λ s. log_start s.log ≡ (D.reads disk).start) }
        ensures first { IfOk result (λ s. log_first s.log ≡ s.first) }
        // Each image begins where the volume does, and opens as it does.
        ensures begins { IsTrue D.tells → IfOk result (λ s. (c : Volume) → D.images (log_disk s.log) c → (c.start ≡ (D.reads disk).start) × (opened c ≡ opened (D.reads disk))) }
        // The counters are those of the records, from their first one on, which is a checkpoint, and a base; whatever the
        // disk tells. A log without records has none.
        ensures counters { IfOk result (λ s. ComesTo s.first s.recs (log_counters s.log)) }
        // Where the last batch is a checkpoint alone, with the counters of the log, it may stand first.
        ensures checkpoint { IsTrue D.tells → IfOk result (λ s. IsCheckpointIn (last_batch (D.reads disk)) (log_counters s.log) (log_checkpoint s.log)) }
        // The promise over the whole list of records begins with those that the volume has.
        ensures keeps { IsTrue D.tells → IfOk result (λ s. KeepsAll s.first s.recs D.images s.log) }

        // A crash at any moment leaves what opens as an image of before, unless the volume ends at the closed gate of an
        // old log.
        ensures any_moment { IsTrue D.tells → EndsWithin (D.reads disk) → IfOk result (λ s. LeavesOnly D.moment D.left_at disk (log_disk s.log) (OpensAsBefore (D.images disk))) }
        ensures any_moment_err { IsTrue D.tells → EndsWithin (D.reads disk) → IfErr result (λ e. LeavesOnly D.moment D.left_at disk e.0 (OpensAsBefore (D.images disk))) }

        // Whatever the volume ends with: a crash at any moment leaves an image of before, but for one byte at the gate.
        ensures written { IsTrue D.tells → IfOk result (λ s. LeavesOnly D.moment D.left_at disk (log_disk s.log) (IsWritten (D.images disk) (log_end s.log) 1)) }
        ensures written_err { IsTrue D.tells → (o : Opened) → opened (D.reads disk) ≡ Ok o → IfErr result (λ e. LeavesOnly D.moment D.left_at disk e.0 (IsWritten (D.images disk) o.gate 1)) }
        // On a damaged volume nothing is written.
        ensures damage_stays { IsTrue D.tells → (at : ℕ) → opened (D.reads disk) ≡ Err at → IfErr result (λ e. LeavesOnly D.moment D.left_at disk e.0 (D.images disk)) }

        ensures damaged { IsTrue D.tells → IfErr result (λ e. (at : ℕ) → e.1 ≡ Damaged at → opened (D.reads disk) ≡ Err at) }
        ensures fault { IfErr result (λ e. e.1 ≡ LogFault → HasRisen (D.faults disk) (D.faults e.0)) }
        ensures faults { IfOk result (λ s. D.faults disk ≤ D.faults (log_disk s.log)) }
        ensures faults_err { IfErr result (λ e. D.faults disk ≤ D.faults e.0) }
        ensures others { IfErr result (λ e. (e.1 ≢ Full) × ((at : ℕ) → e.1 ≢ LogDown at)) }
    {
        let mut disk = disk;
        let found = match read_log(alloc, &mut disk) {
            Ok(found) => found,
            Err(refusal) => return Err((disk, refusal)),
        };
        let Ok(behind) = no_batch(alloc) else {
            return Err((disk, LogRefusal::Memory));
        };
        let Ok(()) = close_gate(&mut disk, &found) else {
            return Err((disk, LogRefusal::LogFault));
        };
        let LogContents {
            recs,
            first,
            counters,
            gate,
            checkpoint,
            start,
            length: _,
        } = found;
        let from = first + recs.items().len() as u64;
        let log = WalLog {
            disk,
            start,
            first,
            gate,
            behind,
            from,
            recs: RecList::new(alloc),
            flushed: 0,
            counters,
            checkpoint,
            down: None,
        };
        Ok(Started { log, recs, first })
    }
}
