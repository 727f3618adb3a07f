//! A session by itself: the levels of its transaction, its open ids, and the snapshots that it has registered.
//! See `docs/ENGINE.md` and, for the words, `docs/GLOSSARY.md`.
#![tactic(auto)]

mod levels;
mod registered;
mod session;

pub use levels::{begin, depth, release, save};
pub use registered::{forget, registered_as};
pub use session::{RegisteredSnapshot, Session};
