//! The critical sections of the ProcArray that the engine's calls make: an id is given, its pages are told, a savepoint
//! is undone, a transaction ends, the status of an id is asked for, and the oldest id is announced, or read with the
//! oldest xmin. Each takes the ProcArray, does one thing and gives it back with one entry. See `docs/ENGINE.md`.
#![tactic(auto)]

mod announcing;
mod asking;
mod ending;
mod giving;
mod looking;
mod telling;
mod undoing;

pub use announcing::announce_oldest;
pub use asking::ask_status;
pub use ending::end_transaction;
pub use giving::give_id;
pub use looking::{
    Horizons, publish_oldest, read_base, read_horizons, read_oldest, read_truncation,
};
pub use telling::tell_made;
pub use undoing::{place_of, undo_savepoint};
