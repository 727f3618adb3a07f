//! The line of a command in a report: where its round stands in its life's histories and where it may read, whether its
//! events and its multixact events begin with those that its reply tells, whether its reply is lawful, and how its session
//! stands behind it. See docs/CHECKER.md.
#![tactic(auto)]

mod both;
mod by_commands;
mod by_events;
mod by_ids;
mod by_multis;
mod commands;
mod known;
mod own;
mod reading;
mod replies;
mod rounds;

pub use commands::{is_lawful_command, pass_line};
pub use known::{Kept, Known};
pub use own::multis_at;
pub use rounds::{RoundAt, round_at};
