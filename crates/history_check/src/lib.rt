//! The replay of a history, of ids and of multixacts: which event is the first that may not come, and whether an id was
//! visible at a past place. It stands over the ProcArray and the generator of multixacts, which judge an event by their
//! state. See docs/HISTORY.md and docs/MULTIXACTS.md.
#![tactic(auto)]

mod given;
mod inside;
mod legal;
mod links;
mod may;
mod multi_legal;
mod multi_may;
mod opened;
mod replay;
mod turns;

pub use legal::first_illegal;
pub use multi_legal::{add_multi, first_illegal_multi};
pub use replay::HistoryReplay;
