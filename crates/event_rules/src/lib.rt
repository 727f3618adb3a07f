//! The rules of the lines of both histories: how far these are legal, whether an event's command is one of the life, in its
//! round's turn and told by its reply, and has its record; where a round's events stand, and whether none but theirs do.
//! See docs/CHECKER.md.
#![tactic(auto)]

mod both;
mod events;
mod front;
mod judged;
mod multi_fronts;
mod multis;
mod same;

pub use events::{is_its_event, mark_told};
pub use front::{HistoryFront, history_front, is_legal_to, may_come_at};
pub use judged::{are_multis_theirs, are_theirs, count_of_events, count_of_multis};
pub use multi_fronts::{are_legal_to, multi_front, multi_may_come_at};
pub use multis::is_its_multi;
pub use same::Same;
