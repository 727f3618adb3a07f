//! Recovery: a cluster's volumes, as a crash left them, are made such that a life may go on from them (`StartupXLOG` in
//! `src/backend/access/transam/xlog.c`). The commits of the log are put on the pages of pg_xact, bank by bank, and what
//! lies past the next id is cleared (`xact_redo_commit` in `xact.c`, `TrimCLOG` in `clog.c`). docs/RECOVERY.md tells what
//! that means.
#![tactic(auto)]

mod banks;
mod cluster;
mod empty;
mod found;
/// The laws. The functions do nothing; their contracts are the laws.
pub mod laws;
mod pages;
mod recovery;
mod redo;
mod refusal;
mod restore;
mod restore_bank;
mod settle;
mod spans;
mod volumes;

pub use cluster::Recovered;
pub use found::{Found, FoundLog, find_log};
pub use recovery::recover;
pub use refusal::RecoverRefusal;
pub use replay_multis::{RestoreRefusal, Share};
pub use restore::restore_states;
