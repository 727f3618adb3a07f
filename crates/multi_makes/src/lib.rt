//! The call of an engine over its lock table that makes a multixact: it is given, its record comes to the log, its
//! members and its offset are set. What a fault stopped is gone on with. See `docs/ENGINE.md`.
#![tactic(auto)]

mod cuts;
mod finishing;
mod full;
mod logging;
mod makes;
mod members;
mod offsets;
mod words;

pub use makes::multi;
