//! A script to its end: its lives and rounds tell which commands are whose, what was told of
//! them and what is kept of that, on how many threads a round runs; and a life's text is written. See
//! `docs/GUARANTEES.md`.
#![tactic(auto)]

mod keeper;
mod last_text;
mod life_text;
mod pieces;
mod places;
mod plan;
mod repeated;
mod round_threads;
mod steps;
mod tally;
mod told;
mod turns;
mod woven;

pub use keeper::{LineKeeper, keep_checkpoint, keep_dump, keeper_laws};
pub use last_text::{finish, say_out_of_memory};
pub use life_text::{LifeText, have_full_multis, put_life, whole_text};
pub use places::PlacesLeft;
pub use plan::{Plan, SparePlan};
pub use round_threads::RoundThreads;
pub use steps::Steps;
pub use tally::Tally;
pub use told::ToldLines;
pub use turns::{command_at, next_part, next_round};
