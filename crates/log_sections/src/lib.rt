//! The critical sections of the log that the engine's calls make: the record of a commit, an abort or a truncation is
//! appended, and the log is flushed. Each takes the log, does one thing and gives it back with one entry. See
//! `docs/ENGINE.md`.
#![tactic(auto)]

mod aborting;
mod appending;
mod flushing;
mod recording;
mod refusals;
mod truncating;

pub use aborting::append_abort;
pub use appending::{Appended, append_commit};
pub use flushing::flush_log;
pub use recording::append_multi;
pub use refusals::refusal_of;
pub use truncating::append_truncation;
