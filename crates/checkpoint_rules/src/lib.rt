//! The rule of a checkpoint's line: what may be answered, by what is pending, by the counters behind the steps before it
//! and by the records that have these. See docs/CHECKER.md.
#![tactic(auto)]

mod answers;
mod asked;
mod behind;
mod checkpoints;
mod counted;
mod pending;

pub use answers::may_checkpoint;
pub use behind::{counters_at, multi_counters_of};
pub use checkpoints::{Point, is_lawful_checkpoint, pass_step};
pub use counted::{Checkpoints, checkpoints_of, note_checkpoint, other_steps_are_none};
pub use pending::Asked;
