//! What a run reports, life by life.
use crate::boxed_reply::BoxedReply;
use crate::command::Command;
use crate::kept_line::KeptLine;
use crate::reply::Reply;
use tx_events::{By, Counters, EventList, IdList, MultiEventList, Name, RecList, Sequence};

/// What a crash leaves of what wasn't synced.
#[derive(Clone, Copy, Debug, PartialEq, Eq)]
pub enum How {
    Lost,
    Kept,
    Torn,
}

/// What a dump shows bytes of.
#[derive(Clone, Copy, Debug, PartialEq, Eq)]
pub enum DumpOf {
    Log,
    Xact { page: u32 },
    Subtrans { page: u32 },
    Offsets { page: u32 },
    Members { page: u32 },
}

/// A command with its reply.
#[derive(Drop)]
pub struct Line {
    pub by: By,
    pub command: Command,
    pub reply: Reply,
}

/// The lines of a round, session by session.
pub type LineList = Sequence<KeptLine>;

/// A step of a life: a round of sessions, or a directive between two rounds.
#[derive(Drop)]
pub enum Step {
    /// The commands of the sessions that ran beside each other. Rounds count from 1 in each life.
    Round {
        number: u64,
        lines: LineList,
    },
    /// A checkpoint.
    Checkpoint {
        reply: BoxedReply,
    },
    /// `length` bytes from place `at` on.
    Dump {
        what: DumpOf,
        at: u64,
        length: u32,
        reply: BoxedReply,
    },
}

const _: () = prove!(size_of::<Step>() == 40);

/// The steps of a life, in order.
pub type StepList = Sequence<Step>;

/// What stands between an opening and a crash: the base (counters, committed ids, recorded multixacts), the two
/// histories and the records appended. `from` is the number of the first record, through all lives; `flushed` that
/// of the first record not known to be flushed; `end` the position of the log's next gate, in bytes.
#[derive(Clone, Drop)]
pub struct Life {
    pub from: u64,
    pub base: Counters,
    pub committed: IdList,
    pub recorded: RecList,
    pub events: EventList,
    pub multis: MultiEventList,
    pub recs: RecList,
    pub flushed: u64,
    pub end: u64,
}

/// A life with its steps and the crash that ended it, if one did.
#[derive(Drop)]
pub struct LifeReport {
    pub life: Life,
    pub steps: StepList,
    pub crash: Option<How>,
}

/// Lives in their order.
pub type LifeList = Sequence<LifeReport>;

/// Names, by session number.
pub type NameList = Sequence<Name>;

/// The report of a run. Its text doesn't carry `committed` and `recorded` of a life: they follow from the records of
/// the lives before. In a report that is read back both are empty.
#[derive(Drop)]
pub struct Report {
    pub names: NameList,
    pub lives: LifeList,
}
