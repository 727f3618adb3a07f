//! The log: records in batches, each behind a gate that opens only once the batch is on the disk (docs/LOG.md; after
//! `src/backend/access/transam/xlog.c`).
#![tactic(auto)]

mod batch_reader;
mod batch_records;
mod batch_write;
mod checkpoint;
mod counters;
pub mod laws;
mod log_contents;
mod log_start;
mod next_rec;
mod pending_batch;
mod refusal;
mod wal_log;

pub use checkpoint::LastCheckpoint;
pub use counters::counters_after;
pub use log_contents::{LogContents, read_log};
pub use log_start::Started;
pub use refusal::LogRefusal;
pub use wal_log::WalLog;
pub use wal_records::{ReadRec, read_rec, write_rec};
