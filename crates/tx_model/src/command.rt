//! What a session may be told to do.
use tx_events::{Copied, FullMulti, FullXid, Memory, Mode, MultiId, Name, Sequence, Xid};

/// A member as a script writes it: the stored half of its id.
#[derive(Clone, Copy, Debug, PartialEq, Eq)]
pub struct Pair {
    pub x: Xid,
    pub mode: Mode,
}

impl Copied for Pair {
    fn copy(&self) -> Result<Self, Memory> {
        Ok(*self)
    }
}

/// Members as a script writes them, in order.
pub type PairList = Sequence<Pair>;

/// A command of a session, as a script has it behind the session's name.
#[derive(Clone, Drop)]
pub enum Command {
    /// Opens a transaction, which has no id yet.
    Begin,
    /// Opens a savepoint in it.
    Save,
    /// Gives an id to each level that lacks one, from the transaction down to the innermost savepoint.
    Write,
    /// Joins the innermost savepoint to its parent.
    Release,
    /// Rolls the innermost savepoint back and closes it.
    Undo,
    /// Commits the transaction.
    Commit,
    /// Aborts the transaction.
    Abort,
    /// Logs the oldest numbers and truncates the stores.
    Trim,
    /// Reads the oldest xmin.
    Horizon,
    /// Takes a snapshot and keeps it under this name.
    Snap { name: Name },
    /// Drops it.
    DropSnap { name: Name },
    /// Asks whether the snapshot sees the stored id `x`.
    See { name: Name, x: Xid },
    /// Asks how the transaction of `x` stands now.
    Status { x: FullXid },
    /// Asks whether `x` has committed, by the stores alone.
    Did { x: Xid },
    /// Makes a multixact of these members.
    Multi { members: PairList },
    /// Asks which members of a multixact the snapshot sees.
    SeeMulti { name: Name, multi: MultiId },
    /// Announces the oldest id that is still asked for.
    Freeze { oldest: FullXid },
    /// Announces the oldest multixact that is still asked for.
    MultiFreeze { multi: FullMulti },
}

impl Copied for Command {
    fn copy(&self) -> Result<Self, Memory> {
        Ok(self.clone()?)
    }
}
