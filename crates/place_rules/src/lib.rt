//! The rules of replies that go by some place of a command's round: which numbers were true where the command may read,
//! and what was so of single ids: what a snapshot holds, how an id stands, whether it committed, how many a session had open,
//! and which members a multixact may have. A rule answers false only where no place serves: a true one is looked for first
//! where it is likely, and all places are gone through for a false one. See docs/SCRIPT-AND-REPORT.md and docs/CHECKER.md.
#![tactic(auto)]

mod asked;
mod did;
mod members;
mod nearest;
mod open;
mod reading;
mod rules;
mod snapshots;
mod visible;

pub use asked::{is_future_at, is_status_at, is_warned};
pub use did::{is_did_at, is_did_too_old};
pub use members::{is_not_given, is_old_member};
pub use open::open_before;
pub use reading::{Reading, reading_of};
pub use rules::{is_backward_at, is_horizon_at, is_stopped_at, is_too_new_at, may_carry};
pub use snapshots::is_snapped;
