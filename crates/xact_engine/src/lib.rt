//! The calls of an engine over its lock table that begin transactions, open and release savepoints, and take and drop
//! snapshots. See `docs/ENGINE.md`.
#![tactic(auto)]

mod levels;
mod savepoints;
mod snapshots;

pub use levels::begin;
pub use savepoints::{release, save};
pub use snapshots::{drop_snap, snap};
