//! From which place on a command may read, whatever the order of its session's events: in the logarithm of their number. A
//! look back for the last event of the command or an earlier one goes by links, which skip events of later commands.
#![tactic(auto)]

mod links;
mod making;
mod reading;

pub use links::Link;
pub use making::links_of_all;
pub use reading::read_back;
