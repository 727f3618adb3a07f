//! The stores on a bank of pages: the parents of subtransactions, where the members of each multixact begin, and the
//! members themselves. After PostgreSQL's `src/backend/access/transam/subtrans.c` and `multixact.c`. `docs/PAGES.md` tells
//! more.
#![tactic(auto)]

mod members;
mod modes;
mod offsets;
mod parents;
mod runs;
mod slot;

pub use members::{read_member, trim_members, write_member};
pub use offsets::{offset, set_offset, trim_offsets};
pub use parents::{climb_ends, parent, set_parent};
pub use runs::{read_members, write_members};
pub use slot::Slot;
