//! Commits appended to a log over memory and flushed in batches, the start of that log, and one copy of its bytes.
ghost use Rattle.std.specs.Prelude.{◌≤◌};

use crate::commits::write_commits;
use crate::timing::{Timed, no_memory, since};
use disk_core::MemLog;
use std::alloc::Global;
use std::io;
use std::time::Instant;
use tx_events::{Counters, Rec, SharedCounters};
use wal_core::WalLog;

// How many commits there are where no number is given.
const COUNT: u32 = 500;

// A log over memory with its first checkpoint. None for want of memory.
fn first_log(alloc: Global) -> Option<WalLog<MemLog>> {
    let disk = MemLog::of(alloc, Vec::new(alloc));
    let mut log = WalLog::start(alloc, disk).ok()?.log;
    let checkpoint = Rec::Checkpoint {
        number: 0,
        counters: SharedCounters::of(alloc, Counters::of_new_log()).ok()?,
    };
    if log.may_append(&checkpoint) && log.append(&checkpoint).is_err() {
        return None;
    }
    if log.flush().is_err() {
        return None;
    }
    Some(log)
}

// The commits that are written.
fn time_writes(
    host: &HostRuntime,
    log: &mut WalLog<MemLog>,
    count: u32,
    batch: u32,
) -> io::Result<Timed>
    requires { 1 ≤ batch }
{
    let start = Instant::now(host)?;
    match write_commits(host.alloc(), log, count, batch) {
        Ok(()) => since(host, start, count as u64),
        Err(_) => Err(no_memory()),
    }
}

// The records that a start of the log reads.
fn time_start(host: &HostRuntime, disk: MemLog) -> io::Result<Timed> {
    let start = Instant::now(host)?;
    match WalLog::start(host.alloc(), disk) {
        Ok(found) => since(host, start, found.recs.items().len() as u64),
        Err(_) => Err(no_memory()),
    }
}

// One copy of so many bytes.
fn time_copy(host: &HostRuntime, bytes: u64) -> io::Result<Timed> {
    let from = Vec::from_elem(host.alloc(), 1u8, bytes as usize)?;
    let mut to = Vec::from_elem(host.alloc(), 0u8, bytes as usize)?;
    let start = Instant::now(host)?;
    to.copy_from_slice(&from);
    since(host, start, bytes)
}

// Writes the commits in batches of a size, starts the log again, and prints what was found.
fn measure(host: &HostRuntime, batch: u32, wanted: Option<u32>) -> io::Result<()>
    requires { 1 ≤ batch }
{
    let Some(log) = first_log(host.alloc()) else {
        return Err(no_memory());
    };
    let mut log = log;
    let writes = time_writes(host, &mut log, wanted.unwrap_or(COUNT), batch)?;
    let bytes = log.end();
    let records = time_start(host, log.into_disk())?;
    let copy = time_copy(host, bytes)?;
    println!(host;
        "batches of {batch}: {} records in {bytes} bytes",
        records.count
    )?;
    if wanted.is_some() {
        println!(host;
            "    a second: {} records appended and flushed, {} read at a start; the start took {} us, a copy of the bytes {} us",
            writes.rate(),
            records.rate(),
            records.micros,
            copy.micros
        )?;
    }
    Ok(())
}

/// Prints what was found for each size of a batch.
pub fn measure_log(host: &HostRuntime, wanted: Option<u32>) -> io::Result<()> {
    measure(host, 1, wanted)?;
    measure(host, 16, wanted)?;
    measure(host, 256, wanted)
}
