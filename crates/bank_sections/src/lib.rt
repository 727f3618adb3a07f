//! The critical sections of pg_xact and pg_subtrans: each enters the lock of a bank, does one thing, or removes what lies
//! before a page, and leaves the lock with one entry. See `docs/ENGINE.md`.
#![tactic(auto)]

mod cut_entries;
mod cuts;
mod entries;
mod page_sets;
mod parents;
mod refused;
mod stalling;
mod states;
mod stored;
mod unlinked;

pub use cuts::{cut_parents, cut_states};
pub use page_sets::set_page;
pub use parents::{link_parent, make_parents, read_parent};
pub use stalling::stall;
pub use states::{make_page, read_state};
pub use unlinked::record_parent;
