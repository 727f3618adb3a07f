//! What the locks' lists keep while sessions add entries to them, that each kind of entry keeps it, and that it decides
//! visibility.
#![tactic(auto)]

mod entry;
/// The laws: each kind of entry keeps the engine invariant, and what follows from it. The functions do nothing; their
/// contracts are the laws.
pub mod laws;
mod locks;
mod verdict;

pub use entry::{Change, Entry, Kind, LogCall, Start, State};
pub use locks::{lock_number, member_lock, offset_lock, parent_lock, state_lock};
pub use verdict::is_seen;
