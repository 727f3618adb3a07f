//! The rule of a dump's line: where its page is cut, and what its bytes show of the ids and multixacts that the life gave.
//! What it rests on is made once for each life; a dump then takes the length of its bytes times the logarithm of the life.
//! See docs/CHECKER.md.
#![tactic(auto)]

mod bytes;
mod cut;
mod cuts;
mod dumps;
mod faults;
mod gens;
mod ids;
mod multis;
mod shown;

pub use cuts::{Cuts, cuts_of};
pub use dumps::may_dump;
pub use faults::is_any_fault;
pub use gens::{GenMark, gens_of};
