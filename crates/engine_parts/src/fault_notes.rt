//! The entries of critical sections whose volume failed before anything was changed.
ghost use Rattle.std.specs.Prelude.{◌≡◌};
ghost use Rattle.slru_bank.specs.Calls.{faults_of};
ghost use Rattle.wal_core.specs.LogViews.{log_disk};
ghost use Rattle.engine_parts.specs.Faults.{fault_by, flush_fault_by};

use disk_core::{LogDisk, PageDisk};
use hall::Note;
use slru_bank::SlruBank;
use store_pages::PageRule;
use tx_core::Entry;
use tx_events::By;
use wal_core::WalLog;

/// A bank's volume failed, which hit this command alone.
pub fn fault_note<P: PageDisk, O: PageRule>(by: By, store: &SlruBank<P, O>) -> Note<Entry>
    ensures { result.value ≡ fault_by by (faults_of store.now) }
{
    Note::by(&(by, store))
}

/// The log's volume failed in a flush.
pub fn flush_fault_note<L: LogDisk>(by: By, log: &WalLog<L>) -> Note<Entry>
    ensures { result.value ≡ flush_fault_by by (L.faults (log_disk log.now)) }
{
    Note::by(&(by, log))
}
