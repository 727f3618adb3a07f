//! What is recovered.
use disk_core::LogDisk;
use tx_events::Counters;
use wal_core::WalLog;

/// A cluster from which a life may begin.
#[derive(Drop)]
pub struct Recovered<L: LogDisk, P> {
    /// It ends with the checkpoint, and begins with it, where no crash brings back what came before.
    pub log: WalLog<L>,
    pub xact: Vec<P>,
    pub subtrans: Vec<P>,
    pub offsets: Vec<P>,
    pub members: Vec<P>,
    /// The number of the checkpoint. The life's first record has the next one.
    pub from: u64,
    /// The counters with which the life begins.
    pub base: Counters,
}
