//! Why no engine was opened.
ghost use Rattle.std.specs.Prelude.{◌≡◌};
ghost use Rattle.engine_host.specs.Refused.{refusal_by};

use tx_events::Lock;
use wal_core::LogRefusal;

/// Why no engine was opened over a log without a record.
#[derive(Clone, Copy, Debug, PartialEq, Eq)]
pub enum OpenRefusal {
    /// The log's volume failed.
    LogFault,
    /// The page volume behind this lock failed.
    DiskFault { lock: Lock },
    /// There is no room for the first checkpoint.
    Full,
    /// Out of memory.
    Memory,
}

// What a refusal of the log means here. A log that was opened isn't damaged, and one that was just opened isn't down.
pub(crate) fn refusal_of(refusal: LogRefusal) -> OpenRefusal
    ensures { result ≡ refusal_by refusal }
{
    match refusal {
        LogRefusal::LogFault | LogRefusal::LogDown { .. } | LogRefusal::Damaged { .. } => {
            OpenRefusal::LogFault
        }
        LogRefusal::Full => OpenRefusal::Full,
        LogRefusal::Memory => OpenRefusal::Memory,
    }
}
