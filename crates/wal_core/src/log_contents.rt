// Reads what a log volume has.
ghost use Rattle.std.specs.Prelude.{◌≡◌, ◌≢◌, ◌-◌, ◌+◌, ◌<◌, ◌≤◌, ◌^◌, ℕ, length, drop, IsTrue, All, replicate, OnOk, IfOk, Ok, Err, None, ◌⊎◌, true, false};
ghost use Rattle.disk_core.specs.Faults.{HasRisen};
ghost use Rattle.disk_core.specs.Images.{Only, NoMore, LeavesOnly};
ghost use Rattle.disk_core.specs.Volume.{Volume};
ghost use Rattle.wal_core.specs.declared.refusal.LogRefusal.TheVariants.{Damaged, LogFault, LogDown, Full};
ghost use Rattle.wal_core.specs.Opening.{opened, BeginsOpen};
ghost use Rattle.wal_core.specs.LogContents.{history_of, ComesTo};
ghost use Rattle.wal_core.specs.Log.{OpensOnceClosed};
ghost use Rattle.wal_core.specs.LastBatch.{last_batch};
ghost use Rattle.wal_core.specs.Checkpoint.{IsCheckpointIn};

use crate::batch_reader::{Found, behind_open, read_batches};
use crate::checkpoint::LastCheckpoint;
use crate::refusal::LogRefusal;
use disk_core::{Extent, Failed, LogDisk};
use std::alloc::{AllocError, Global};
use tx_events::{Counters, RecList};

/// The records of a log volume, the number of the first, the counters after them, the place of the next gate, the
/// checkpoint that the last batch may be, and from where on the volume has bytes and how far they reach. A new log has
/// no records and no counters.
#[derive(Drop)]
pub struct LogContents {
    pub recs: RecList,
    pub first: u64,
    pub counters: Option<Counters>,
    pub gate: u64,
    pub checkpoint: Option<LastCheckpoint>,
    pub start: u64,
    pub length: u64,
}

fn no_records(alloc: Global, extent: Extent) -> LogContents
    ensures history { history_of result ≡ None }
    ensures gate { result.gate ≡ 0 }
    ensures none { (result.counters ≡ None) × (result.first + length result.recs ≡ 0) }
    ensures checkpoint { result.checkpoint ≡ None }
    ensures comes { ComesTo result.first result.recs result.counters }
    ensures reach { result.length ≡ extent.length }
    ensures start { result.start ≡ extent.start }
{
    LogContents {
        recs: RecList::new(alloc),
        first: 0,
        counters: None,
        gate: 0,
        checkpoint: None,
        start: extent.start,
        length: extent.length,
    }
}

fn zeros(alloc: Global, count: usize) -> Result<Vec<u8>, AllocError>
    ensures { IfOk result (λ v. v.items ≡ replicate count 0) }
{
    let mut bytes = Vec::new(alloc);
    bytes.resize(count, 0)?;
    Ok(bytes)
}

// All bytes from the start on.
fn read_all<D: LogDisk>(alloc: Global, disk: &mut D, extent: Extent) -> Result<Vec<u8>, LogRefusal>
    requires start { IsTrue D.tells → extent.start ≡ (D.reads disk.old).start }
    requires length { IsTrue D.tells → extent.length ≡ length (D.reads disk.old).bytes }
    ensures bytes { IsTrue D.tells → IfOk result (λ v. v.items ≡ drop (D.reads disk.old).start (D.reads disk.old).bytes) }
    ensures within { IfOk result (λ v. length v.items ≤ extent.length - extent.start) }
    ensures same { IsTrue D.tells → D.reads disk.new ≡ D.reads disk.old }
    ensures crash { IsTrue D.tells → NoMore (D.images disk.old) (D.images disk.new) }
    ensures any_moment { IsTrue D.tells → LeavesOnly D.moment D.left_at disk.old disk.new (D.images disk.old) }
    ensures count { D.faults disk.old ≤ D.faults disk.new }
    ensures fault { result ≡ Err LogFault → HasRisen (D.faults disk.old) (D.faults disk.new) }
    ensures others { (result ≢ Err Full) × (((at : ℕ) → result ≢ Err (LogDown at)) × ((at : ℕ) → result ≢ Err (Damaged at))) }
{
    let count = extent.length.saturating_sub(extent.start) as usize;
    let Ok(mut bytes) = zeros(alloc, count) else {
        return Err(LogRefusal::Memory);
    };
    let Ok(read) = disk.read(extent.start, &mut bytes) else {
        return Err(LogRefusal::LogFault);
    };
    bytes.truncate(read);
    Ok(bytes)
}

// Whether nothing was ever acknowledged on a volume with these bytes.
fn is_unwritten(start: u64, bytes: &[u8]) -> bool
    ensures unwritten { result ≡ true → (start ≡ 0) × ((length bytes.now ≤ 1) ⊎ (BeginsOpen bytes.now → ⊥)) }
    ensures bytes { All (λ b. b < 2 ^ 8) bytes.now }
    ensures written { result ≡ false → (start ≢ 0) ⊎ ((1 < length bytes.now) × BeginsOpen bytes.now) }
{
    if start != 0 {
        return false;
    }
    match behind_open(bytes) {
        Some(after) => after.is_empty(),
        None => true,
    }
}

// The bytes of a volume from its start on.
fn contents_of(alloc: Global, extent: Extent, bytes: &[u8]) -> Result<LogContents, LogRefusal>
    requires small { extent.start + length bytes.now < 2 ^ 64 }
    ensures once_closed { (v : Volume) → v.start ≡ extent.start → drop v.start v.bytes ≡ bytes.now → IfOk result (λ found. OpensOnceClosed found.gate found.counters (found.first + length found.recs) v) }
    ensures numbers { IfOk result (λ found. found.first + length found.recs ≤ found.gate) }
    ensures place { IfOk result (λ found. found.gate < 2 ^ 64) }
    ensures comes { IfOk result (λ found. ComesTo found.first found.recs found.counters) }
    ensures reach { IfOk result (λ found. found.length ≡ extent.length) }
    ensures start { IfOk result (λ found. found.start ≡ extent.start) }
    ensures found { (v : Volume) → v.start ≡ extent.start → drop v.start v.bytes ≡ bytes.now → IfOk result (λ found. opened v ≡ Ok (record { history = history_of found; gate = found.gate })) }
    ensures last { (v : Volume) → v.start ≡ extent.start → drop v.start v.bytes ≡ bytes.now → IfOk result (λ found. IsCheckpointIn (last_batch v) found.counters found.checkpoint) }
    ensures damaged { (v : Volume) (at : ℕ) → v.start ≡ extent.start → drop v.start v.bytes ≡ bytes.now → result ≡ Err (Damaged at) → opened v ≡ Err at }
    ensures others { (result ≢ Err LogFault) × ((result ≢ Err Full) × ((at : ℕ) → result ≢ Err (LogDown at))) }
{
    if is_unwritten(extent.start, bytes) {
        return Ok(no_records(alloc, extent));
    }
    match read_batches(alloc, extent.start, bytes) {
        Ok(
            Found {
                past,
                gate,
                checkpoint,
            },
        ) => Ok(LogContents {
            recs: past.recs,
            first: past.first,
            counters: Some(past.counters),
            gate,
            checkpoint,
            start: extent.start,
            length: extent.length,
        }),
        Err(refusal) => Err(refusal),
    }
}

fn read_extent<D: LogDisk>(
    alloc: Global,
    disk: &mut D,
    extent: Extent,
) -> Result<LogContents, LogRefusal>
    requires start { IsTrue D.tells → extent.start ≡ (D.reads disk.old).start }
    requires length { IsTrue D.tells → extent.length ≡ length (D.reads disk.old).bytes }
    ensures read { IsTrue D.tells → IfOk result (λ found. opened (D.reads disk.old) ≡ Ok (record { history = history_of found; gate = found.gate })) }
    ensures once_closed { IsTrue D.tells → IfOk result (λ found. OpensOnceClosed found.gate found.counters (found.first + length found.recs) (D.reads disk.old)) }
    ensures numbers { IfOk result (λ found. found.first + length found.recs ≤ found.gate) }
    ensures place { IfOk result (λ found. found.gate < 2 ^ 64) }
    ensures comes { IfOk result (λ found. ComesTo found.first found.recs found.counters) }
    ensures reach { IsTrue D.tells → IfOk result (λ found. found.length ≡ length (D.reads disk.old).bytes) }
    ensures begins { IsTrue D.tells → IfOk result (λ found. found.start ≡ (D.reads disk.old).start) }
    ensures last { IsTrue D.tells → IfOk result (λ found. IsCheckpointIn (last_batch (D.reads disk.old)) found.counters found.checkpoint) }
    ensures damaged { IsTrue D.tells → (at : ℕ) → result ≡ Err (Damaged at) → opened (D.reads disk.old) ≡ Err at }
    ensures fault { result ≡ Err LogFault → HasRisen (D.faults disk.old) (D.faults disk.new) }
    ensures others { (result ≢ Err Full) × ((at : ℕ) → result ≢ Err (LogDown at)) }
    ensures same { IsTrue D.tells → D.reads disk.new ≡ D.reads disk.old }
    ensures crash { IsTrue D.tells → NoMore (D.images disk.old) (D.images disk.new) }
    ensures any_moment { IsTrue D.tells → LeavesOnly D.moment D.left_at disk.old disk.new (D.images disk.old) }
    ensures count { D.faults disk.old ≤ D.faults disk.new }
{
    if extent.start == 0 && extent.length <= 1 {
        return Ok(no_records(alloc, extent));
    }
    match read_all(alloc, disk, extent) {
        Ok(bytes) => contents_of(alloc, extent, &bytes),
        Err(refusal) => Err(refusal),
    }
}

/// Syncs, and reads what a log volume has: the records of its batches up to the first closed gate, or the place of
/// the first gate at which it is damaged. Nothing is written.
pub fn read_log<D: LogDisk>(alloc: Global, disk: &mut D) -> Result<LogContents, LogRefusal>
    ensures read { IsTrue D.tells → IfOk result (λ found. opened (D.reads disk.old) ≡ Ok (record { history = history_of found; gate = found.gate })) }
    ensures once_closed { IsTrue D.tells → IfOk result (λ found. OpensOnceClosed found.gate found.counters (found.first + length found.recs) (D.reads disk.old)) }
    ensures numbers { IfOk result (λ found. found.first + length found.recs ≤ found.gate) }
    ensures place { IfOk result (λ found. found.gate < 2 ^ 64) }
    ensures comes { IfOk result (λ found. ComesTo found.first found.recs found.counters) }
    ensures reach { IsTrue D.tells → IfOk result (λ found. found.length ≡ length (D.reads disk.old).bytes) }
    ensures begins { IsTrue D.tells → IfOk result (λ found. found.start ≡ (D.reads disk.old).start) }
    ensures last { IsTrue D.tells → IfOk result (λ found. IsCheckpointIn (last_batch (D.reads disk.old)) found.counters found.checkpoint) }
    ensures damaged { IsTrue D.tells → (at : ℕ) → result ≡ Err (Damaged at) → opened (D.reads disk.old) ≡ Err at }
    ensures fault { result ≡ Err LogFault → HasRisen (D.faults disk.old) (D.faults disk.new) }
    ensures others { (result ≢ Err Full) × ((at : ℕ) → result ≢ Err (LogDown at)) }
    ensures same { IsTrue D.tells → D.reads disk.new ≡ D.reads disk.old }
    ensures crash { IsTrue D.tells → NoMore (D.images disk.old) (D.images disk.new) }
    ensures any_moment { IsTrue D.tells → LeavesOnly D.moment D.left_at disk.old disk.new (D.images disk.old) }
    ensures synced { IsTrue D.tells → OnOk result (Only (D.reads disk.old) (D.images disk.new)) }
    ensures count { D.faults disk.old ≤ D.faults disk.new }
{
    match disk.sync() {
        Ok(()) => match disk.extent() {
            Ok(extent) => read_extent(alloc, disk, extent),
            Err(Failed) => Err(LogRefusal::LogFault),
        },
        Err(Failed) => Err(LogRefusal::LogFault),
    }
}
