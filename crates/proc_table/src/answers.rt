//! What the table's calls answer.
use tx_events::FullXid;

/// The answer to a call that gives an id.
#[derive(Clone, Copy, Debug, PartialEq, Eq)]
pub enum Given {
    /// The id was given, with a warning where it is at or past the warning limit.
    Id { id: FullXid, warn: bool },
    /// Nothing was given: the pages of the next id have to be made first.
    NeedPage { id: FullXid },
}

/// How an id stood when it was asked for.
#[derive(Clone, Copy, Debug, PartialEq, Eq)]
pub struct Asked {
    /// Whether its transaction was running and no savepoint round it was rolled back.
    pub running: bool,
    /// The id that is given next.
    pub next: FullXid,
    /// The announced oldest id.
    pub oldest: FullXid,
}
