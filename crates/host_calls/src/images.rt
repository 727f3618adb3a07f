//! What the volumes of a life that is over are: their images. The functions do nothing; their contracts say it.
ghost use Rattle.std.specs.Prelude.{◌^◌, ◌<◌, IsTrue};
ghost use Rattle.wal_core.specs.LogViews.{log_disk};

use disk_core::{LogDisk, PageDisk};
use wal_core::WalLog;

/// A place in a log is below 2^64.
pub fn has_64_bits(_place: u64)
    ensures { _place < 2 ^ 64 }
{}

/// A log's volume as it reads is one of its images.
pub fn reads_an_image<L: LogDisk>(_log: &WalLog<L>)
    ensures { IsTrue L.tells → L.images (log_disk _log.now) (L.reads (log_disk _log.now)) }
{}

/// So a page volume.
pub fn pages_read_an_image<P: PageDisk>()
    ensures { IsTrue P.tells → (v : P) → P.images v (P.pages v) }
{}
