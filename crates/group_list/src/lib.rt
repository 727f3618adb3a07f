//! A lock-free list of members, in which one leader takes all who wait by one exchange.
//!
//! It serves the group update of commit status in PostgreSQL: of the backends that want
//! to write to one page of the commit log at a time, the first takes the lock and writes
//! for all (`TransactionGroupUpdateXidStatus` in `src/backend/access/transam/clog.c`). docs/CONCURRENCY.md,
//! "The group list", explains it.
#![tactic(auto)]

mod batch;
mod list;
mod member;
mod memory;
mod order;
mod plays;
mod role;
mod view;

pub use batch::Batch;
pub use list::GroupList;
pub use member::Member;
pub use memory::Memory;
pub use order::Order;
pub use role::Role;
pub use view::{Event, Stage, View};
