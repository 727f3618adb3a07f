// The open log: what is pending, what is on the disk, and the four device calls between.
ghost use Rattle.std.specs.Prelude.{◌≡◌, ◌+◌, ◌<◌, ◌≤◌, ◌^◌, [], length, drop, IsTrue, None, Some};
ghost use Rattle.std.proofs.Props.{props};
ghost use Rattle.disk_core.specs.Volume.{Volume};
ghost use Rattle.wal_core.specs.declared.refusal.LogRefusal.TheVariants.{LogFault};
ghost use Rattle.wal_core.specs.Opening.{behind_gate};
ghost use Rattle.wal_core.specs.Log.{IsReady, IsNextBatch};
ghost use Rattle.wal_core.specs.Kept.{first_on};
ghost use Rattle.wal_records.specs.Lawful.{are_lawful};
ghost use Rattle.wal_core.specs.Checkpoint.{MayBegin};
ghost use Rattle.wal_core.specs.declared.checkpoint.LastCheckpoint.{LastCheckpoint};

use crate::batch_write::write_batch;
use crate::checkpoint::{LastCheckpoint, checkpoint_of};
use crate::next_rec::may_come_next;
use crate::pending_batch::{add_rec, counters_with, is_full};
use crate::refusal::LogRefusal;
use disk_core::{Failed, LogDisk};
use tx_events::{Counters, Rec, RecList};
use wal_records::rec_length;

/// The log of a volume, as `XLogCtl` of `src/backend/access/transam/xlog.c` stands for PostgreSQL's: its records, in batches on
/// the disk and pending in memory. Records are numbered from 0 through all lives, places are bytes of the volume.
#[derive(Drop)]
pub struct WalLog<D: LogDisk> {
    pub(crate) disk: D,
    // The place of the first gate that the volume keeps.
    pub(crate) start: u64,
    // No image begins past the record of this number.
    pub(crate) first: u64,
    // The place of the next gate.
    pub(crate) gate: u64,
    // What is written behind it: a length, the pending records, and the gate after them.
    pub(crate) behind: Vec<u8>,
    // The number of the first of `recs`.
    pub(crate) from: u64,
    pub(crate) recs: RecList,
    // How many of them are flushed.
    pub(crate) flushed: u64,
    // After all records, also those that were read at the start.
    pub(crate) counters: Option<Counters>,
    // The last batch that is flushed, where it may stand first.
    pub(crate) checkpoint: Option<LastCheckpoint>,
    // The flushed number at the failure of a call.
    pub(crate) down: Option<u64>,
    ghost counts: { flushed ≤ length recs },
    ghost small: { from + length recs < 2 ^ 64 },
    ghost numbers: { from + length recs + 5 ≤ gate + length behind.items },
    ghost next_batch: { IsNextBatch behind.items (drop flushed recs) },
    ghost few: { flushed < length recs → gate + length behind.items ≤ 2 ^ 40 },
    ghost lawful: { IsTrue (are_lawful (drop flushed recs)) },
    ghost numbered: { from + flushed ≤ gate },
    ghost firsts: { IsTrue D.tells → down ≡ None → first ≤ first_on (D.reads disk) },
    ghost starts: { IsTrue D.tells → down ≡ None → (D.reads disk).start ≡ start },
    ghost begins: { IsTrue D.tells → down ≡ None → (k : LastCheckpoint) → checkpoint ≡ Some k → (c : Volume) → D.images disk c → MayBegin k gate (drop flushed recs) counters (from + length recs) c } by { Prim.hlevel props },
    ghost ready: { IsTrue D.tells → down ≡ None → (c : Volume) → D.images disk c → IsReady gate (drop flushed recs) counters (from + length recs) c } by { Prim.hlevel props },
}

// What is written when nothing is pending.
#[tactic(auto, unfolding(wal_records::specs::Numbers::le_bytes))]
fn clear(behind: &mut Vec<u8>)
    requires { 5 ≤ length behind.old.items }
    ensures { behind.new.items ≡ behind_gate [] }
{
    behind.truncate(5);
    behind.copy_from_slice(&[0; 5]);
}

// A call failed, when so many records were flushed.
fn put_down(down: &mut Option<u64>, flushed: u64) -> LogRefusal
    ensures down { down.new ≡ Some flushed }
    ensures fault { result ≡ LogFault }
{
    *down = Some(flushed);
    LogRefusal::LogFault
}

impl<D: LogDisk> WalLog<D> {
    ghost use Rattle.std.specs.Prelude.{◌≡◌, ◌≢◌, ◌↔◌, ◌+◌, ◌≤◌, ◌++◌, ◌∷◌, [], ℕ, List, length, slice_index, IsTrue, IsSome, IsNone, IfSome, IfOk, OnOk, OnErr, Option, None, Some, Ok, Err};
    ghost use Rattle.tx_events.specs.After.{after_record};
    ghost use Rattle.disk_core.specs.Faults.{HasRisen};
    ghost use Rattle.disk_core.specs.Images.{LeavesOnly, NoMore};
    ghost use Rattle.disk_core.specs.Volume.{Volume, IsRead, overlaid};
    ghost use Rattle.wal_core.specs.declared.refusal.LogRefusal.TheVariants.{LogDown, LogFault, Full, Memory, Damaged};
    ghost use Rattle.wal_core.specs.Opening.{behind_gate};
    ghost use Rattle.wal_core.specs.Log.{OpensFromImage, MayAppend, IsFull, counters_or_none, bytes_of};
    ghost use Rattle.wal_records.specs.Spelling.{rec_bytes};
    ghost use Rattle.wal_core.specs.Checkpoint.{IsLastCheckpoint, OpensOrBegins};
    ghost use Rattle.wal_core.specs.declared.checkpoint.LastCheckpoint.{LastCheckpoint};
    ghost use Rattle.wal_core.specs.LogViews.{log_disk, log_recs, log_pending, log_next, log_flushed, log_end, log_counters, log_down, log_start, log_first, log_checkpoint, KeepsAll};
    ghost use Rattle.wal_core.specs.Kept.{BeginWith, HasFlushed, first_on, other_behind};
    ghost use Rattle.tx_events.specs.declared.record.Rec.{Rec};

    /// Whether the record may be appended: it is lawful, a checkpoint has the number `next()`, the first record of a new
    /// log is a checkpoint, and the counters after it are a base.
    pub fn may_append(&self, rec: &Rec) -> bool
        ensures { IsTrue result ↔ MayAppend (log_counters self.now) (log_next self.now) rec.now }
    {
        may_come_next(self.counters, self.next(), rec)
    }

    /// Adds a record at the end (XLogInsert), and answers its number, counted through all lives. It is pending until the
    /// next flush, which takes no memory: the room for its bytes is made here. `LogDown`, `Full` where the log would pass
    /// 2^40 bytes or the batch 2^32 - 1, or `Memory`, in this order; after an error nothing changed.
    pub fn append(&mut self, rec: &Rec) -> Result<u64, LogRefusal>
        requires { MayAppend (log_counters self.old) (log_next self.old) rec.now }
        ensures number { IfOk result (λ n. n ≡ log_next self.old) }
        ensures recs { OnOk result (log_recs self.new ≡ log_recs self.old ++ rec.now ∷ []) }
        ensures pending { OnOk result (log_pending self.new ≡ log_pending self.old ++ rec.now ∷ []) }
        ensures counters { OnOk result (log_counters self.new ≡ Some (after_record (counters_or_none (log_counters self.old)) rec.now)) }
        ensures next { OnOk result (log_next self.new ≡ log_next self.old + 1) }
        ensures err_recs { OnErr result ((log_recs self.new ≡ log_recs self.old) × (log_pending self.new ≡ log_pending self.old)) }
        ensures err_counters { OnErr result ((log_counters self.new ≡ log_counters self.old) × (log_next self.new ≡ log_next self.old)) }
        ensures flushed { log_flushed self.new ≡ log_flushed self.old }
        ensures end { log_end self.new ≡ log_end self.old }
        ensures disk { log_disk self.new ≡ log_disk self.old }
        ensures checkpoint { log_checkpoint self.new ≡ log_checkpoint self.old }
        ensures start { log_start self.new ≡ log_start self.old }
        ensures first { log_first self.new ≡ log_first self.old }
        ensures stays { log_down self.new ≡ log_down self.old }
        ensures down { (at : ℕ) → result ≡ Err (LogDown at) → log_down self.old ≡ Some at }
        ensures is_down { (at : ℕ) → log_down self.old ≡ Some at → result ≡ Err (LogDown at) }
        ensures full { result ≡ Err Full → IsFull (log_end self.old) (length (bytes_of (log_pending self.old))) (length (rec_bytes rec.now)) }
        ensures is_full { log_down self.old ≡ None → IsFull (log_end self.old) (length (bytes_of (log_pending self.old))) (length (rec_bytes rec.now)) → result ≡ Err Full }
        ensures no_other { (result ≢ Err LogFault) × ((at : ℕ) → result ≢ Err (Damaged at)) }

        // The promise over the whole list of records, which has one more.
        ensures keeps { IsTrue D.tells → OnOk result ((first : ℕ) (all : List Rec) → KeepsAll first all D.images self.old → KeepsAll first (all ++ rec.now ∷ []) D.images self.new) }
        ensures err_keeps { IsTrue D.tells → OnErr result ((first : ℕ) (all : List Rec) → KeepsAll first all D.images self.old → KeepsAll first all D.images self.new) }
    {
        if let Some(at) = self.down {
            return Err(LogRefusal::LogDown { at });
        }
        let pending = self.behind.len() as u64 - 5;
        if is_full(self.gate, pending, rec_length(rec)) {
            return Err(LogRefusal::Full);
        }
        let number = self.from + self.recs.items().len() as u64;
        match add_rec(&mut self.behind, &mut self.recs, rec) {
            Ok(()) => {
                self.counters = counters_with(self.counters, rec);
                Ok(number)
            }
            Err(_) => Err(LogRefusal::Memory),
        }
    }

    /// Puts the pending records on the disk as one batch (XLogFlush), by four device calls; by none where nothing is
    /// pending. After `LogFault` the log is down, where PostgreSQL would PANIC: the batch may be on the disk or not, and
    /// what was written in part is never written over. Takes no memory.
    pub fn flush(&mut self) -> Result<(), LogRefusal>
        ensures recs { log_recs self.new ≡ log_recs self.old }
        ensures next { log_next self.new ≡ log_next self.old }
        ensures counters { log_counters self.new ≡ log_counters self.old }
        ensures ok { OnOk result (log_flushed self.new ≡ log_next self.old) }
        ensures err { OnErr result (log_flushed self.new ≡ log_flushed self.old) }
        ensures down_asks_nothing { (at : ℕ) → log_down self.old ≡ Some at → log_disk self.new ≡ log_disk self.old }
        ensures no_call { log_pending self.old ≡ [] → (log_disk self.new ≡ log_disk self.old) × (result ≢ Err LogFault) }
        ensures start { log_start self.new ≡ log_start self.old }
        ensures first { log_first self.new ≡ log_first self.old }

        // The end is behind the batch, where one was written, and else stays.
        ensures end { OnOk result (log_pending self.old ≢ [] → log_end self.new ≡ log_end self.old + 5 + length (bytes_of (log_pending self.old))) }
        ensures same_end { OnOk result (log_pending self.old ≡ [] → log_end self.new ≡ log_end self.old) }
        ensures err_end { OnErr result (log_end self.new ≡ log_end self.old) }
        // The closed gate behind it is a byte 0.
        ensures closed { IsTrue D.tells → OnOk result (log_pending self.old ≢ [] → slice_index (D.reads (log_disk self.new)).bytes (log_end self.new) ≡ 0) }
        // The batch is written behind the gate, the gate is opened, and every other byte stays.
        ensures bytes { IsTrue D.tells → OnOk result (log_pending self.old ≢ [] → (D.reads (log_disk self.new)).bytes
            ≡ overlaid (overlaid (D.reads (log_disk self.old)).bytes (log_end self.old + 1) (behind_gate (bytes_of (log_pending self.old)))) (log_end self.old) (1 ∷ [])) }

        // Where a batch was written, no image begins before `log_first`: what was forgotten before is on the disk.
        ensures begins { IsTrue D.tells → OnOk result (log_pending self.old ≢ [] → (c : Volume) → D.images (log_disk self.new) c → log_first self.new ≤ first_on c) }
        // And in any case each begins as one of before.
        ensures begins_same { IsTrue D.tells → (other : ℕ) → BeginWith (log_first self.old) other (D.images (log_disk self.old)) → BeginWith (log_first self.new) other (D.images (log_disk self.new)) }

        // A checkpoint alone, with the counters of the log, may stand first from then on.
        ensures checkpoint { OnOk result (log_pending self.old ≢ [] → IsLastCheckpoint (log_end self.old) (log_pending self.old) (log_counters self.old) (log_checkpoint self.new)) }
        ensures no_batch { OnOk result (log_pending self.old ≡ [] → log_checkpoint self.new ≡ log_checkpoint self.old) }
        ensures err_checkpoint { OnErr result (log_checkpoint self.new ≡ log_checkpoint self.old) }

        ensures down { (at : ℕ) → result ≡ Err (LogDown at) → log_down self.old ≡ Some at }
        ensures is_down { (at : ℕ) → log_down self.old ≡ Some at → result ≡ Err (LogDown at) }
        ensures no_other { (result ≢ Err Full) × (result ≢ Err Memory) × ((at : ℕ) → result ≢ Err (Damaged at)) }
        ensures fault { result ≡ Err LogFault → HasRisen (D.faults (log_disk self.old)) (D.faults (log_disk self.new)) }
        ensures faults { D.faults (log_disk self.old) ≤ D.faults (log_disk self.new) }
        ensures put_down { result ≡ Err LogFault → log_down self.new ≡ Some (log_flushed self.old) }
        ensures stays { result ≢ Err LogFault → log_down self.new ≡ log_down self.old }

        // A crash at any moment, and one after it, leaves what opens as an image of before, with the pending records
        // or without.
        ensures any_moment { IsTrue D.tells → log_down self.old ≡ None → LeavesOnly D.moment D.left_at (log_disk self.old) (log_disk self.new)
            (OpensFromImage (D.images (log_disk self.old)) (log_end self.old) (log_pending self.old)) }
        ensures left { IsTrue D.tells → log_down self.old ≡ None → (c : Volume) → D.images (log_disk self.new) c
            → OpensFromImage (D.images (log_disk self.old)) (log_end self.old) (log_pending self.old) c }

        // The promise over the whole list of records: kept by the call, and at each moment of it.
        ensures keeps { IsTrue D.tells → (first : ℕ) (all : List Rec) → KeepsAll first all D.images self.old → KeepsAll first all D.images self.new }
        ensures keeps_at_each_moment { IsTrue D.tells → (first : ℕ) (all : List Rec) → KeepsAll first all D.images self.old
            → LeavesOnly D.moment D.left_at (log_disk self.old) (log_disk self.new) (HasFlushed first all (log_first self.old) (log_flushed self.old)) }
    {
        if let Some(at) = self.down {
            return Err(LogRefusal::LogDown { at });
        }
        let count = self.recs.items().len() as u64;
        if self.flushed == count {
            return Ok(());
        }
        match write_batch(&mut self.disk, self.gate, &self.behind) {
            Ok(()) => {
                let batch = &self.recs.items()[self.flushed as usize..];
                self.checkpoint = checkpoint_of(self.gate, batch, self.counters);
                self.gate += self.behind.len() as u64;
                clear(&mut self.behind);
                self.flushed = count;
                Ok(())
            }
            Err(Failed) => Err(put_down(&mut self.down, self.from + self.flushed)),
        }
    }

    /// Whether what stands before the last batch may be forgotten.
    pub fn may_forget(&self) -> bool
        ensures { IsTrue result ↔ IsSome (log_checkpoint self.now) }
    {
        self.checkpoint.is_some()
    }

    /// Forgets what stands before the last batch, a checkpoint alone, by one device call; by none where nothing stands
    /// before it. The caller has written to its stores what the earlier records told (CheckPointGuts), so that no start
    /// needs them (RemoveOldXlogFiles). It isn't synced: a crash finds the log from the old start on or from the
    /// checkpoint on, and either has all that is flushed. After `LogFault` the log is down. Takes no memory.
    pub fn forget_before_checkpoint(&mut self) -> Result<(), LogRefusal>
        requires { IsSome (log_checkpoint self.old) }
        ensures recs { log_recs self.new ≡ log_recs self.old }
        ensures next { log_next self.new ≡ log_next self.old }
        ensures counters { log_counters self.new ≡ log_counters self.old }
        ensures flushed { log_flushed self.new ≡ log_flushed self.old }
        ensures end { log_end self.new ≡ log_end self.old }
        ensures checkpoint { log_checkpoint self.new ≡ log_checkpoint self.old }
        ensures ok { OnOk result (IfSome (log_checkpoint self.old) (λ k. log_start self.new ≡ k.gate)) }
        ensures err { OnErr result (log_start self.new ≡ log_start self.old) }
        // From then on an image begins with the checkpoint, or before it where the start wasn't raised.
        ensures first { ((at : ℕ) → result ≢ Err (LogDown at)) → IfSome (log_checkpoint self.old) (λ k. log_first self.new ≡ k.number) }
        ensures first_down { (at : ℕ) → result ≡ Err (LogDown at) → log_first self.new ≡ log_first self.old }
        // Before it: with the record with which the log was to begin so far, if that stands there.
        ensures begins { IsTrue D.tells → log_down self.old ≡ None → (first : ℕ) (all : List Rec) → KeepsAll first all D.images self.old → (other : ℕ)
            → BeginWith (log_first self.old) other (D.images (log_disk self.old))
            → BeginWith (log_first self.new) (other_behind (log_first self.new) (log_first self.old) other) (D.images (log_disk self.new)) }
        ensures down_asks_nothing { (at : ℕ) → log_down self.old ≡ Some at → log_disk self.new ≡ log_disk self.old }
        ensures no_call { IfSome (log_checkpoint self.old) (λ k. log_start self.old ≡ k.gate → (log_disk self.new ≡ log_disk self.old) × (result ≢ Err LogFault)) }
        ensures down { (at : ℕ) → result ≡ Err (LogDown at) → log_down self.old ≡ Some at }
        ensures is_down { (at : ℕ) → log_down self.old ≡ Some at → result ≡ Err (LogDown at) }
        ensures no_other { (result ≢ Err Full) × (result ≢ Err Memory) × ((at : ℕ) → result ≢ Err (Damaged at)) }
        ensures fault { result ≡ Err LogFault → HasRisen (D.faults (log_disk self.old)) (D.faults (log_disk self.new)) }
        ensures faults { D.faults (log_disk self.old) ≤ D.faults (log_disk self.new) }
        ensures put_down { result ≡ Err LogFault → log_down self.new ≡ Some (log_flushed self.old) }
        ensures stays { result ≢ Err LogFault → log_down self.new ≡ log_down self.old }

        // The volume keeps its bytes, from the checkpoint's gate on.
        ensures bytes { IsTrue D.tells → (D.reads (log_disk self.new)).bytes ≡ (D.reads (log_disk self.old)).bytes }
        ensures kept { IsTrue D.tells → log_down self.old ≡ None → OnOk result (IfSome (log_checkpoint self.old) (λ k. (D.reads (log_disk self.new)).start ≡ k.gate)) }

        // A crash at any moment, and one after it, leaves what opens as an image of before, or begins with the checkpoint.
        ensures any_moment { IsTrue D.tells → log_down self.old ≡ None → (k : LastCheckpoint) → log_checkpoint self.old ≡ Some k
            → LeavesOnly D.moment D.left_at (log_disk self.old) (log_disk self.new) (OpensOrBegins (D.images (log_disk self.old)) k (log_end self.old)) }
        ensures left { IsTrue D.tells → log_down self.old ≡ None → (k : LastCheckpoint) → log_checkpoint self.old ≡ Some k
            → (c : Volume) → D.images (log_disk self.new) c → OpensOrBegins (D.images (log_disk self.old)) k (log_end self.old) c }

        // The promise over the whole list of records: kept by the call, and at each moment of it.
        ensures keeps { IsTrue D.tells → (first : ℕ) (all : List Rec) → KeepsAll first all D.images self.old → KeepsAll first all D.images self.new }
        ensures keeps_at_each_moment { IsTrue D.tells → (first : ℕ) (all : List Rec) → KeepsAll first all D.images self.old
            → LeavesOnly D.moment D.left_at (log_disk self.old) (log_disk self.new) (HasFlushed first all (log_first self.new) (log_flushed self.old)) }
    {
        if let Some(at) = self.down {
            return Err(LogRefusal::LogDown { at });
        }
        let checkpoint = self.checkpoint.unwrap();
        let gate = checkpoint.gate;
        let flushed = self.flushed();
        self.first = checkpoint.number;
        if self.start == gate {
            return Ok(());
        }
        match self.disk.forget(gate) {
            Ok(()) => {
                self.start = gate;
                Ok(())
            }
            Err(Failed) => Err(put_down(&mut self.down, flushed)),
        }
    }

    /// Reads the volume's bytes at a place, fewer than asked for only at the end. After `LogFault`, its only error, the
    /// log is as before: it isn't put down.
    pub fn dump(&mut self, at: u64, into: &mut [u8]) -> Result<usize, LogRefusal>
        ensures count { IfOk result (λ n. n ≤ length into.old) }
        ensures bytes { IsTrue D.tells → IfOk result (λ n. IsRead (D.reads (log_disk self.old)).bytes at into.old n into.new) }
        ensures same { IsTrue D.tells → D.reads (log_disk self.new) ≡ D.reads (log_disk self.old) }
        ensures crash { IsTrue D.tells → NoMore (D.images (log_disk self.old)) (D.images (log_disk self.new)) }
        ensures recs { log_recs self.new ≡ log_recs self.old }
        ensures next { log_next self.new ≡ log_next self.old }
        ensures flushed { log_flushed self.new ≡ log_flushed self.old }
        ensures end { log_end self.new ≡ log_end self.old }
        ensures counters { log_counters self.new ≡ log_counters self.old }
        ensures start { log_start self.new ≡ log_start self.old }
        ensures first { log_first self.new ≡ log_first self.old }
        ensures checkpoint { log_checkpoint self.new ≡ log_checkpoint self.old }
        ensures stays { log_down self.new ≡ log_down self.old }
        ensures any_moment { IsTrue D.tells → LeavesOnly D.moment D.left_at (log_disk self.old) (log_disk self.new) (D.images (log_disk self.old)) }
        ensures keeps { IsTrue D.tells → (first : ℕ) (all : List Rec) → KeepsAll first all D.images self.old → KeepsAll first all D.images self.new }
        ensures keeps_at_each_moment { IsTrue D.tells → (first : ℕ) (all : List Rec) → KeepsAll first all D.images self.old
            → LeavesOnly D.moment D.left_at (log_disk self.old) (log_disk self.new) (HasFlushed first all (log_first self.old) (log_flushed self.old)) }
        ensures fault { OnErr result ((result ≡ Err LogFault) × HasRisen (D.faults (log_disk self.old)) (D.faults (log_disk self.new))) }
        ensures faults { D.faults (log_disk self.old) ≤ D.faults (log_disk self.new) }
    {
        match self.disk.read(at, into) {
            Ok(read) => Ok(read),
            Err(Failed) => Err(LogRefusal::LogFault),
        }
    }

    /// The number of the next record, counted through all lives.
    pub fn next(&self) -> u64
        ensures { result ≡ log_next self.now }
    {
        self.from + self.recs.items().len() as u64
    }

    /// The number of the first record that isn't known to be flushed.
    pub fn flushed(&self) -> u64
        ensures { result ≡ log_flushed self.now }
    {
        self.from + self.flushed
    }

    /// The place of the next gate.
    pub fn end(&self) -> u64
        ensures { result ≡ log_end self.now }
    {
        self.gate
    }

    /// The records appended since the start.
    pub fn recs(&self) -> &[Rec]
        ensures { result.now ≡ log_recs self.now }
    {
        self.recs.items()
    }

    /// The counters after all records, of which there has to be one.
    pub fn counters(&self) -> Counters
        requires { IsSome (log_counters self.now) }
        ensures { log_counters self.now ≡ Some result }
    {
        self.counters.unwrap()
    }

    /// Whether the log has no record, on the disk or pending.
    pub fn is_new(&self) -> bool
        ensures { IsTrue result ↔ IsNone (log_counters self.now) }
    {
        self.counters.is_none()
    }

    /// The disk, as the log leaves it.
    pub fn into_disk(self) -> D
        ensures { result ≡ log_disk self }
    {
        self.disk
    }
}
