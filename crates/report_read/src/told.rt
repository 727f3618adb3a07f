//! What the lines so far have told.
ghost use Rattle.std.specs.Prelude.{◌≡◌};
ghost use Rattle.report_read.specs.Grammar.{after};
ghost use Rattle.report_read.specs.Item as items;
ghost use Rattle.report_read.specs.Reports.{nothing_told};

use crate::growing::Growing;
use crate::multi_history::MultiHistory;
use report_lines::{LogHead, Start};
use std::alloc::Global;
use tx_model::{Counters, Event, KeptLine, LifeReport, NameList, Rec, Sequence, Step};

/// What may follow.
#[derive(Clone, Copy, PartialEq, Eq)]
pub enum Stage {
    /// The title.
    Opening,
    /// The line that begins a life.
    Between,
    /// A step or the history.
    Steps,
    /// The first command of a round.
    Silent,
    /// A further command of the round, a step or the history.
    Spoken,
    /// An event, or the multixact events.
    History,
    /// A multixact event, or the log.
    Multis,
    /// A record, a crash or the last line.
    Log,
    /// Nothing.
    Closed,
}

/// What the lines so far have told: the lives that have ended, and of the present one its parts.
#[derive(Drop)]
pub struct Told {
    pub stage: Stage,
    /// The sessions' names, in the order of their first places.
    pub names: NameList,
    pub lives: Growing<LifeReport>,
    pub start: Start,
    /// The steps that are complete.
    pub steps: Growing<Step>,
    /// The number of the present round, 0 before the first.
    pub round: u64,
    /// The lines of the present round.
    pub lines: Growing<KeptLine>,
    /// How many commands each session had in this life.
    pub counts: [u64; 64],
    /// The session of the last command of the round.
    pub speaker: Option<u32>,
    /// The sessions that had commands in the round, by their first.
    pub spoken: Sequence<u32>,
    pub events: Growing<Event>,
    pub multis: MultiHistory,
    pub log: LogHead,
    pub recs: Growing<Rec>,
}

impl Told {
    /// What the title tells.
    #[tactic(auto, unfolding(crate::specs::Reports::nothing_told, crate::specs::Grammar::no_counts))]
    pub fn titled(alloc: Global) -> Told
        ensures { result ≡ after nothing_told items.title }
    {
        Told {
            stage: Stage::Between,
            names: NameList::new(alloc),
            lives: Growing::new(alloc),
            start: Start {
                from: 0,
                base: Counters::of_new_log(),
            },
            steps: Growing::new(alloc),
            round: 0,
            lines: Growing::new(alloc),
            counts: [0; 64],
            speaker: None,
            spoken: Sequence::new(alloc),
            events: Growing::new(alloc),
            multis: MultiHistory::new(alloc),
            log: LogHead { flushed: 0, end: 0 },
            recs: Growing::new(alloc),
        }
    }
}
