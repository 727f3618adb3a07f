//! Why commands are refused.
ghost use Rattle.std.specs.Prelude.{◌≡◌};
ghost use Rattle.tx_events.specs.declared.refusal.Refusal.TheVariants as refusals;

use crate::sequence::Memory;
use crate::{FullMulti, FullXid, Xid};

/// A lock, and with it the volume behind it. The number is the bank.
#[derive(Clone, Copy, Debug, PartialEq, Eq)]
pub enum Lock {
    Log,
    Proc,
    Multi,
    Xact(u32),
    Subtrans(u32),
    Offsets(u32),
    Members(u32),
}

/// Why a command was refused. The text of each is its name in small letters with dashes.
#[derive(Clone, Copy, Debug, PartialEq, Eq)]
pub enum Refusal {
    /// The session has a transaction.
    AlreadyOpen,
    /// It has none.
    NoTransaction,
    /// It has no savepoint.
    NoSavepoint,
    /// It has 1,000 savepoints.
    DepthLimit,
    /// Its commit record stands, its commit doesn't.
    CommitPending,
    /// Its abort met a disk fault and wasn't finished.
    AbortPending,
    /// Its last undo met a disk fault and wasn't finished.
    UndoPending,
    /// The next id is at or past the stop limit.
    Stop { next: FullXid, stop: FullXid },
    /// The volume behind the lock failed.
    DiskFault { lock: Lock },
    /// The log's volume failed.
    LogFault,
    /// The log failed earlier; records from number `at` on aren't known to be flushed.
    LogDown { at: u64 },
    /// The log has no room.
    Full,
    /// The session has a snapshot of this name.
    NameTaken,
    /// It has 64 snapshots.
    SnapLimit,
    /// It has no snapshot of this name.
    NoSnapshot,
    /// The id is older than the announced oldest one.
    TooOld { oldest: FullXid },
    /// The id is at or past the next one.
    Future { next: FullXid },
    /// Two members update.
    TwoUpdaters,
    /// There are no members, or more than 64.
    MemberCount,
    /// This member was never given.
    NotGiven { x: Xid },
    /// The next multixact is at or past its stop limit.
    MultiStop { next: FullMulti, stop: FullMulti },
    /// The members would reach the limit of their offsets.
    MemberStop { next: u64, stop: u64 },
    /// The multixact's offset isn't recorded yet.
    NotYet { multi: FullMulti },
    /// The multixact is older than the oldest one.
    MultiTooOld { oldest: FullMulti },
    /// It is at or past the next one.
    MultiFuture { next: FullMulti },
    /// The oldest number would go back.
    Backward { now: u64 },
    /// The oldest id would pass the oldest xmin.
    TooNew { limit: FullXid },
    /// The oldest multixact would pass a pin.
    Held { limit: FullMulti },
    /// The session's last multixact isn't recorded yet.
    MultiPending,
    /// Want of memory.
    Memory,
}

impl From<Memory> for Refusal {
    ghost from_gives = { λ _ r. r ≡ refusals.Memory };

    fn from(_e: Memory) -> Refusal {
        Refusal::Memory
    }
}
