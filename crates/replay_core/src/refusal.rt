//! Why a cluster wasn't recovered.
ghost use Rattle.std.specs.Prelude.{◌≡◌};
ghost use Rattle.replay_core.specs.Refused.{refusal_by};

use tx_events::Lock;
use wal_core::LogRefusal;

#[derive(Clone, Copy, Debug, PartialEq, Eq)]
pub enum RecoverRefusal {
    /// The log's volume is no lawful log. The place is that of the first gate at which it isn't.
    Damaged { at: u64 },
    /// The log's volume failed.
    LogFault,
    /// The volume of this lock's bank failed.
    DiskFault { lock: Lock },
    /// The log has no room for the checkpoint.
    Full,
    /// Out of memory.
    Memory,
}

// What a refusal of the log means here. A log that was just started isn't down.
pub(crate) fn refusal_of(refusal: LogRefusal) -> RecoverRefusal
    ensures { result ≡ refusal_by refusal }
{
    match refusal {
        LogRefusal::Damaged { at } => RecoverRefusal::Damaged { at },
        LogRefusal::LogFault | LogRefusal::LogDown { .. } => RecoverRefusal::LogFault,
        LogRefusal::Full => RecoverRefusal::Full,
        LogRefusal::Memory => RecoverRefusal::Memory,
    }
}
