//! The calls of an engine over its lock table that let old ids and multixacts go: the oldest one is announced, and a
//! truncation cuts the stores behind it. After PostgreSQL's `vac_truncate_clog` (`src/backend/commands/vacuum.c`),
//! `TruncateCLOG` and `TruncateMultiXact`. See `docs/ENGINE.md`.
#![tactic(auto)]

mod cutting;
mod freezing;
mod ids;
/// What no truncation removes, and what each does. The functions do nothing; their contracts are the laws.
pub mod laws;
mod logging;
mod trimming;

pub use freezing::multi_freeze;
pub use ids::freeze;
pub use trimming::trim;
