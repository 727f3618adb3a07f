use tx_events::{
    By, Counters, Event, FullMulti, FullXid, IdList, Member, MultiEvent, Rec, RecList, Sequence,
};

/// A state of a transaction as pg_xact holds it (`src/include/access/clog.h`). An id of which none was set is in
/// progress.
#[derive(Clone, Copy, Debug, PartialEq, Eq)]
pub enum State {
    Committed,
    Aborted,
    /// A subtransaction has committed if its parent has.
    SubCommitted,
}

/// A change to a page, and the command that asked for it. A session may make changes for others.
pub enum Change {
    /// The state of `id`, on pg_xact.
    State {
        caller: By,
        id: FullXid,
        state: State,
    },
    /// The parent of `id`, on pg_subtrans.
    Parent {
        caller: By,
        id: FullXid,
        parent: FullXid,
    },
    /// Where the members of `multi` start, counted in full.
    Offset {
        caller: By,
        multi: FullMulti,
        offset: u64,
    },
    /// The member at `offset`, counted in full.
    Slot {
        caller: By,
        offset: u64,
        member: Member,
    },
}

/// The call of the log that met a fault.
pub enum LogCall {
    Flush,
    /// The records below this number were to be forgotten, and may be.
    Forget { number: u64 },
    Dump,
}

/// What one critical section adds to the list of its lock.
pub enum Kind {
    /// The log: a record was appended.
    Append {
        rec: Rec,
    },
    /// The records below the number `to` are on disk.
    Flush {
        to: u64,
    },
    /// The records below this number are forgotten.
    Forget {
        number: u64,
    },
    /// The log's disk failed; `count` is its count of faults after it.
    LogFault {
        asked: LogCall,
        count: u64,
    },
    /// The ProcArray: something happened to an id or a snapshot.
    Event {
        event: Event,
    },
    /// The pages of `id` are made.
    Made {
        id: FullXid,
    },
    /// Something happened to a multixact.
    Multi {
        event: MultiEvent,
    },
    /// The oldest id, or the oldest xmin, was published for those who read it under no lock.
    Post {
        number: u64,
    },
    /// A bank of a store: these changes were made.
    Set {
        changes: Sequence<Change>,
    },
    /// A page was made, all zeros, where the last made page is before it. Its number is in full.
    Zero {
        page: u64,
    },
    /// The pages before this one are no longer kept.
    Cut {
        page: u64,
    },
    /// All pages are on disk.
    Sync,
    /// The bank's disk failed: for whom, what was changed before, and the page up to which it was cut, where it was.
    Fault {
        callers: Sequence<By>,
        changes: Sequence<Change>,
        cut: Option<u64>,
        count: u64,
    },
    /// The session asks another one to make these changes.
    Request {
        changes: Sequence<Change>,
    },
    /// The value under the lock was only read.
    Look,
}

/// An entry of a lock's list: whose it is, and what it says. Contracts alone speak of entries; no value is made.
pub struct Entry {
    pub by: By,
    pub kind: Kind,
}

/// What a life starts from. Contracts alone speak of it.
pub struct Start {
    /// How many banks each of the four page stores has.
    pub banks: u32,
    /// How many sessions there may be.
    pub sessions: u32,
    /// The number of the first record that the life appends: one more than that of the checkpoint with which it began.
    pub from: u64,
    pub base: Counters,
    /// The ids that are committed.
    pub committed: IdList,
    /// The records of the multixacts that were made before.
    pub recorded: RecList,
    /// The records that the log had when the life began, the checkpoint with which it began last.
    pub logged: RecList,
    /// The place on the log's volume where the batches of these records end, and the first batch of the life may begin.
    pub gate: u64,
    /// Whether the pages told at what offset each of the multixacts that were made before begins.
    pub told: bool,
    /// The volumes' counts of faults when the life began, by the numbers of their locks; 0 where there is none.
    pub faults: Sequence<u64>,
}
