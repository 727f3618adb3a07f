//! What each place of a history tells, and where a number was true: of ids, snapshots and multixacts. See docs/HISTORY.md.
#![tactic(auto)]

mod ids;
mod mark;
mod multis;
mod opens;
mod places;
mod snaps;
mod start;
mod visible;

pub use ids::{id_marks, was_running};
pub use mark::IdMark;
pub use multis::MultiPlaces;
pub use opens::open_now;
pub use places::HistoryPlaces;
pub use snaps::{SnapMark, snap_mark};
pub use start::{Start, is_start};
pub use visible::was_visible;
