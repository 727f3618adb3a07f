//! What is known of a life before its lines are judged.
use history_places::{HistoryPlaces, IdMark, MultiPlaces, SnapMark, Start};
use id_sets::IdSet;
use multi_rules::{Home, LimitAt, Taken};
use place_columns::{GivenCounts, LineTable, Own, OwnEvents};
use reply_rules::{LogEnd, Logs};
use std::collections::BTreeSet;
use turn_links::Link;

/// What is made once of a life: its lines' numbers, what its histories tell up to the first event that may not come, and
/// what its log holds.
#[derive(Drop)]
pub struct Known {
    pub table: LineTable,
    pub events: OwnEvents,
    pub multis: OwnEvents,
    pub counts: GivenCounts,
    /// The legal front of the history.
    pub places: HistoryPlaces,
    /// Of each event of it, the snapshot that it takes.
    pub snaps: Vec<Option<SnapMark>>,
    /// Each session's events of it.
    pub turns: Vec<Vec<Own>>,
    pub marks: Vec<IdMark>,
    /// How many ids its session has open behind each event of it.
    pub opened: Vec<u64>,
    /// The snapshots that each line's command takes in it.
    pub taken: Vec<Vec<Taken>>,
    /// The legal front of the multixact events.
    pub multi_places: MultiPlaces,
    pub multi_turns: Vec<Vec<Own>>,
    /// How a look back goes over them, whatever their order.
    pub multi_links: Vec<Vec<Link>>,
    pub held: Vec<LimitAt>,
    /// Of each multixact event, whether its command was answered `ok` with a multixact.
    pub oks: Vec<bool>,
    /// The multixacts that were given so behind the legal front.
    pub late: BTreeSet<u64>,
    /// The transactions of all commit records.
    pub tops: IdSet,
    /// All ids of commit records.
    pub recorded: IdSet,
    pub logs: Logs,
    pub end: LogEnd,
}

/// What the lives before have left: committed ids, and where recorded multixacts begin and have their members.
#[derive(Drop)]
pub struct Kept {
    pub committed: BTreeSet<u64>,
    pub starts: Vec<Start>,
    pub homes: Vec<Home>,
}
