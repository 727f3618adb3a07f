//! Multixacts: which number, offset and members each has, which ones readers pin, and the oldest one that is still
//! asked for. After PostgreSQL's `src/backend/access/transam/multixact.c`. `docs/MULTIXACTS.md` tells it in words.
#![tactic(auto)]

mod answers;
mod generator;
mod laws;
mod members;
mod pins;
mod places;

pub use answers::{Held, MultiGiven};
pub use generator::MultiGen;
pub use laws::{counters_never_fall, counters_stay_a_base};
pub use members::check_members;
