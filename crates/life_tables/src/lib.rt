//! What is made once of a life before its lines are judged: its lines by their commands, the legal fronts of its
//! histories, what its replies tell, and what its log holds. See docs/CHECKER.md.
#![tactic(auto)]

mod committed;
mod making;
mod telling;

pub use committed::add_all_committed;
pub use making::{
    counts_in, front_of, late_of, log_end_of, logs_of, multi_front_of, oks_of, owned, recorded_in,
    table_of, taken_of, turns_of,
};
pub use telling::{gave_by_lines, lists_by_lines};
