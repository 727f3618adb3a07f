//! The critical sections of the banks of offsets and of members of multixacts: each enters the lock of a bank, does one
//! thing and leaves the lock with one entry. See `docs/ENGINE.md`.
#![tactic(auto)]

mod cuts;
mod entries;
mod members;
mod offsets;
mod refused;
mod stored;

pub use cuts::{cut_members, cut_offsets};
pub use members::{make_member_page, read_members, record_members};
pub use offsets::{make_offset_page, read_offset, record_offset};
