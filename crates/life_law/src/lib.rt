//! Which report of a life is lawful: the replies and their causes, the lines round by round, and the log. What it says
//! of events and of replies by the history alone stands in `tx_events` and `tx_model`. docs/SCRIPT-AND-REPORT.md and
//! docs/GUARANTEES.md tell it in words.
#![tactic(auto)]

pub mod laws;
