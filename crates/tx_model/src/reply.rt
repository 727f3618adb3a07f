//! What a command is answered.
use crate::given_ids::GivenIds;
use tx_events::{Copied, FullMulti, FullXid, Memory, Mode, Refusal, Sequence, SharedSnap};

/// How a transaction stands.
#[derive(Clone, Copy, Debug, PartialEq, Eq)]
pub enum Status {
    InProgress,
    Committed,
    Aborted,
}

/// What a snapshot says of a multixact's member.
#[derive(Clone, Copy, Debug, PartialEq, Eq)]
pub enum Verdict {
    Visible,
    Hidden,
    TooOld,
}

/// A member with the verdict on it.
#[derive(Clone, Copy, Debug, PartialEq, Eq)]
pub struct MemberVerdict {
    pub id: FullXid,
    pub mode: Mode,
    pub verdict: Verdict,
}

impl Copied for MemberVerdict {
    fn copy(&self) -> Result<Self, Memory> {
        Ok(*self)
    }
}

/// The verdicts on a multixact's members, in order.
pub type VerdictList = Sequence<MemberVerdict>;

/// Bytes of a dump.
pub type ByteList = Sequence<u8>;

/// The answer to a command or a directive.
#[derive(Clone, Drop)]
pub enum Reply {
    /// The plain `ok`.
    Done,
    /// Whether an id came with a warning, and the ids given now, in order.
    Wrote {
        warn: bool,
        ids: GivenIds,
    },
    /// What the snapshot holds.
    Snapped {
        lists: SharedSnap,
    },
    /// Whether the snapshot sees the id.
    Seen {
        visible: bool,
    },
    /// How the transaction stands.
    Known {
        status: Status,
    },
    /// Whether it committed.
    Did {
        yes: bool,
    },
    /// The multixact, where its members start, and whether it came with a warning.
    Multi {
        multi: FullMulti,
        offset: u64,
        warn: bool,
    },
    /// One verdict per member.
    Verdicts {
        verdicts: VerdictList,
    },
    /// The oldest xmin.
    Horizon {
        oldest_xmin: FullXid,
    },
    /// The bytes of a dump.
    Bytes {
        bytes: ByteList,
    },
    /// The dumped page is truncated; pages from this one on are kept.
    Cut {
        cutoff: u32,
    },
    /// A checkpoint was refused, since this session is in the midst of a commit or a multixact.
    Pending {
        session: u32,
        refusal: Refusal,
    },
    /// The command was refused.
    Refused {
        refusal: Refusal,
    },
}

const _: () = prove!(size_of::<Reply>() == 40);

impl Copied for Reply {
    fn copy(&self) -> Result<Self, Memory> {
        Ok(self.clone()?)
    }
}
