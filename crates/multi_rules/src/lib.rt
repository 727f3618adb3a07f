//! The rules of replies on multixacts that go by some place of a command's round: which numbers were true where the
//! command may read, where a multixact was given, and what held an oldest one back. And the rules of verdicts, on single
//! ids and on members, by the snapshots that a command took: neither their xmax nor what is visible of one id ever falls
//! along them, so the first or the last of those decides to which a stored half means the same. See
//! docs/SCRIPT-AND-REPORT.md and docs/CHECKER.md.
#![tactic(auto)]

mod held;
mod homes;
mod late;
mod limits;
mod made;
mod meaning;
mod nearby;
mod not_yet;
mod one;
mod own;
mod pins;
mod reading;
mod rules;
mod seen;
mod taken;
mod verdicts;
mod visible;
mod warned;

pub use held::is_held_back;
pub use homes::Home;
pub use late::late_multis;
pub use limits::{LimitAt, held_limits};
pub use made::gen_place;
pub use meaning::{is_multi_future_at, is_multi_too_old_at};
pub use not_yet::is_not_yet;
pub use own::is_pinned_or_next;
pub use reading::{MultiReading, multi_reading_of};
pub use rules::{is_member_stop_at, is_multi_backward_at, is_multi_stop_at};
pub use seen::{is_seen, is_too_old_for};
pub use taken::{Taken, taken_by_lines, taken_in};
pub use verdicts::are_verdicts;
pub use warned::is_multi_warned;
