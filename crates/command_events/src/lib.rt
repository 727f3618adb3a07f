//! The events that a command's reply tells, of ids and of multixacts, and with which the command's own begin. See
//! docs/SCRIPT-AND-REPORT.md.
#![tactic(auto)]

mod begin;
mod kinds;
mod multis;
mod pins;
mod plain;
mod reach;
mod shape;
mod told;
mod writes;

pub use multis::{has_first_multis, is_told_multi};
pub use reach::{Reach, reach_of};
pub use told::told_events;
