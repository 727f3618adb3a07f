//! The refusals that go by how a session stands, what its lines leave pending, and how each session of a life stands
//! behind the lines so far. See docs/SCRIPT-AND-REPORT.md.
#![tactic(auto)]

mod members;
mod pending;
mod refused;
mod rules;
mod sessions;

pub use members::{by_members, refused_by_members};
pub use pending::{Unfinished, pending_after, unfinished_behind};
pub use refused::refused_by;
pub use rules::{is_refused_by_members, is_refused_by_standing};
pub use sessions::{Session, add_line, new_sessions};
