//! A script is taken from a source, piece by piece. See `docs/GUARANTEES.md`.
#![tactic(auto)]

mod reader;
mod script;
mod source;

pub use script::NoScript;
pub use source::take_script;
