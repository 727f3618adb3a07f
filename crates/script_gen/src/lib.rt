//! What the words of the command line ask for, the scripts of `gen SEED SIZE`, and the summary of what a run of one did
//! (docs/SCRIPT-AND-REPORT.md).
#![tactic(auto)]

mod draws;
mod generator;
pub mod laws;
mod summary;
mod task;
mod words;
mod writer;

pub use generator::generate;
pub use summary::Summary;
pub use task::{Task, task_of};
pub use words::{Asked, gen_words};
