//! What an engine is opened over, and what it consists of.
use disk_core::{LogDisk, PageDisk};
use engine_parts::Part;
use notes::Note;
use tx_core::Start;
use tx_events::Counters;

/// What a new cluster begins with.
#[derive(Clone, Copy, Debug, Drop)]
pub struct Cluster {
    /// The next id, the oldest one, and those of the multixacts.
    pub base: Counters,
    /// How many banks each store has, 1 to 16.
    pub banks: u32,
    /// How many sessions there may be, at most 64.
    pub sessions: u32,
}

/// The volumes of the banks: of each store one for each bank, in their order.
#[derive(Drop)]
pub struct BankVolumes<P> {
    pub xact: Vec<P>,
    pub subtrans: Vec<P>,
    pub offsets: Vec<P>,
    pub members: Vec<P>,
}

/// The parts of an engine.
pub struct Parts<L: LogDisk, P: PageDisk> {
    pub cluster: Cluster,
    /// What lies behind each lock, in the order of the locks (`docs/ENGINE.md`).
    pub locks: Vec<Part<L, P>>,
    /// What the life starts from, for contracts alone.
    pub start: Note<Start>,
}
