//! Values that contracts alone see, and lists that only grow, of which proofs keep the account
//! (docs/CONCURRENCY.md, "Histories").
#![tactic(auto)]

mod note;

pub use note::Note;
