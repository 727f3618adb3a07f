//! Values behind locks, each standing for the history of its lock, and numbers that may be read under
//! no lock (docs/CONCURRENCY.md, "The lock table").
//!
//! The locks are PostgreSQL's lightweight locks in exclusive mode, `LWLock` of
//! `src/backend/storage/lmgr/lwlock.c`, such as ProcArrayLock and XidGenLock.
#![tactic(auto)]

mod enter_and_leave;
mod hall;
mod hall_rule;
mod law;
mod layout;
mod make_and_close;
mod memory;
mod names;
mod parts;
mod pass;
mod published;
mod split_and_join;
mod step_kinds;
mod view;
mod writer;

pub use hall::Hall;
pub use hall_rule::HallRule;
pub use law::Law;
pub use memory::Memory;
pub use notes::Note;
pub use pass::{Pass, Token};
pub use view::{Held, Merged, Opening, Stage, View};
pub use writer::Writer;
