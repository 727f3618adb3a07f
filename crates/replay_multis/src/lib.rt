//! The volumes of offsets and members at a recovery: the multixacts of the log's records are put on the pages again, and
//! what no record tells of is cleared (`multixact_redo` and `TrimMultiXact` of `multixact.c`). docs/RECOVERY.md tells what
//! that means.
#![tactic(auto)]

mod empty;
mod members;
mod offsets;
mod redo_members;
mod redo_offsets;
mod refusal;
mod share;

pub use empty::sync_if_empty;
pub use members::restore_members;
pub use offsets::{OffsetSpan, restore_offsets};
pub use redo_members::MemberSpan;
pub use refusal::RestoreRefusal;
pub use share::Share;
