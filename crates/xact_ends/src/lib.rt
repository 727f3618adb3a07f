//! The calls of an engine over its lock table that end transactions. See `docs/ENGINE.md`.
#![tactic(auto)]

mod aborting;
mod aborts;
mod commits;
mod committing;
mod idless;
mod logging;
mod settling;
mod undoing;
mod undos;

pub use aborts::abort;
pub use commits::commit;
pub use undos::undo;
