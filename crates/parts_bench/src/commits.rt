//! Commits of one id after another, flushed in batches.
ghost use Rattle.std.specs.Prelude.{◌≡◌, ◌+◌, ◌≤◌, ◌<◌, ℕ, OnOk};
ghost use Rattle.wal_core.specs.LogViews.{log_next, log_flushed};

use disk_core::LogDisk;
use std::alloc::Global;
use tx_events::{FullXid, IdList, Rec};
use wal_core::{LogRefusal, WalLog};

/// Why the commits weren't written.
#[derive(Clone, Copy)]
pub enum Stop {
    /// The commit of this number may not come next.
    Unlawful(u32),
    Refused(LogRefusal),
}

/// Appends commits of the ids from 3 on, and flushes after each batch and at the end.
pub fn write_commits<D: LogDisk>(
    alloc: Global,
    log: &mut WalLog<D>,
    count: u32,
    batch: u32,
) -> Result<(), Stop>
    requires { 1 ≤ batch }
    ensures count { OnOk result (log_next log.new ≡ log_next log.old + count) }
    ensures flushed { OnOk result (log_flushed log.new ≡ log_next log.new) }
{
    for i in 0..count {
        let Some(top) = FullXid::new(3 + i as u64) else {
            return Err(Stop::Unlawful(i));
        };
        let rec = Rec::Commit {
            top,
            subs: IdList::new(alloc),
        };
        if !log.may_append(&rec) {
            return Err(Stop::Unlawful(i));
        }
        if let Err(refusal) = log.append(&rec) {
            return Err(Stop::Refused(refusal));
        }
        if (i + 1) % batch == 0 {
            if let Err(refusal) = log.flush() {
                return Err(Stop::Refused(refusal));
            }
        }
    }
    match log.flush() {
        Ok(()) => Ok(()),
        Err(refusal) => Err(Stop::Refused(refusal)),
    }
}
