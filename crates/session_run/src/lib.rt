//! Runs a script over a media, life by life, its sessions on threads over an engine, and the tool's top call. See
//! `docs/GUARANTEES.md`, `docs/SCRIPT-AND-REPORT.md` and `docs/ENGINE.md`.
#![tactic(auto)]

mod commands;
mod ended;
mod ending;
pub mod laws;
mod life;
mod member;
mod round;
mod rounds;
mod run;
mod stop;
mod tool;

pub use tool::{run_tool, run_tool_behind};
