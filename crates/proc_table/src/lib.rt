//! The table of running transactions and live snapshots (the ProcArray): it gives ids, takes snapshots, and keeps
//! the history of what happened under its lock. After PostgreSQL's `src/backend/storage/ipc/procarray.c`,
//! `src/backend/access/transam/varsup.c` and `src/backend/utils/time/snapmgr.c`. See docs/HISTORY.md.
#![tactic(auto)]

mod answers;
mod entries;
mod entry;
mod live;
mod named;
mod table;
mod xmins;

pub use answers::{Asked, Given};
pub use table::ProcTable;
