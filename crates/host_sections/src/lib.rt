//! The critical sections that the host of a lock table makes between two rounds. For a checkpoint the log is flushed, a
//! bank is synced, the counters are read, a checkpoint is appended, and the log is forgotten before it: each takes what
//! lies behind one lock, does one thing and gives it back. For a dump it takes the log or a bank, to put it back. No
//! session is in meanwhile. See `docs/ENGINE.md`.
#![tactic(auto)]

mod banks;
mod counters;
mod home;
mod log;

pub use banks::{sync_members, sync_offsets, sync_subtrans, sync_xact};
pub use counters::read_counters;
pub use home::{take_log, take_members, take_offsets, take_proc, take_subtrans, take_xact};
pub use log::{append_checkpoint, flush_records, forget_log};
