//! How a session stands after the lines of a report: its levels and its snapshots, line by line. See
//! docs/SCRIPT-AND-REPORT.md.
#![tactic(auto)]

mod levels;
mod snaps;
mod standing;
mod stands;

pub use levels::Levels;
pub use snaps::Snaps;
pub use standing::Standing;
pub use stands::{is_lacking, is_open, taken_as, top_of};
