//! Numbers by the places of a history, none below the one before it: where one of them was true is found in the logarithm
//! of the history's length. So where the events of each session and command stand, and which id and which multixact is
//! given next at each place, also of histories that may be illegal. See docs/HISTORY.md and docs/CHECKER.md.
#![tactic(auto)]

mod behind;
mod columns;
mod copies;
mod counts;
mod events;
mod lines;
mod own;
mod span;

pub use copies::{Owned, bys_of, events_of_line};
pub use counts::{GivenCounts, given_counts};
pub use events::OwnEvents;
pub use lines::{LineAt, LineTable};
pub use own::{Own, own_places, read_from};
pub use span::{Span, column_of, span_of, span_of_id};
