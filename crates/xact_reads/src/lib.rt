//! The calls of an engine over its lock table that only read: whether a session's snapshot sees an id, how an id
//! stands, whether it has committed by the stores alone, what a snapshot says of a multixact's members, and the oldest
//! xmin. See `docs/ENGINE.md`.
#![tactic(auto)]

mod climbs;
mod dids;
mod gathers;
mod glances;
mod horizons;
mod judges;
mod multis;
mod sees;
mod shows;
mod spans;
mod states;
mod statuses;

pub use dids::did;
pub use horizons::horizon;
pub use multis::see_multi;
pub use sees::see;
pub use statuses::status;
