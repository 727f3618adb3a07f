//! A life of an engine over the volumes of a media: how it is opened, what it leaves, and how that is printed. See
//! `docs/ENGINE.md`.
#![tactic(auto)]

mod begun;
mod closed;
mod ending;
/// What a crash leaves of all volumes fits the log while a critical section runs, too. The functions do nothing; their
/// contracts are the laws.
pub mod fits;
pub mod laws;
mod life;
mod old_life;
mod old_parts;
mod opened;
mod refusal;
mod sessions;

pub use closed::{ClosedLife, close_life};
pub use ending::{EndText, end_life};
pub use life::{Aside, OpenLife};
pub use old_parts::open_old;
pub use opened::open_life;
pub use refusal::NoLife;
pub use sessions::new_sessions;
