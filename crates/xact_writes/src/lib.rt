//! The call of an engine over its lock table that gives each level of a session's transaction its id. See
//! `docs/ENGINE.md`.
#![tactic(auto)]

mod levels;
mod page_making;
mod writes;

pub use writes::{Wrote, write};
