//! The critical sections of the generator of multixacts that the engine's calls make: a multixact is given, one is pinned
//! and let go, the oldest one is raised, and the counters are read. Each takes the generator, does one thing and gives it
//! back with one entry. See `docs/ENGINE.md`.
#![tactic(auto)]

mod leaving;
mod looking;
mod pinning;
mod raising;
mod settling;
mod taking;

pub use looking::{few_given, read_multis};
pub use pinning::{pin_multi, unpin_multi};
pub use raising::{Freezing, start_freeze};
pub use settling::{Raising, raise_multi};
pub use taking::take_multi;
