//! Page buffers over a volume: a bank is a map from pages to 8192 bytes, whatever was evicted. On them the commit log:
//! the states of transactions, two bits an id, and the steps of a commit over several pages. After PostgreSQL's
//! `src/backend/access/transam/slru.c`, `clog.c` and `transam.c`. `docs/PAGES.md` tells more, `docs/DISKS.md` of the
//! volumes below.
#![tactic(auto)]

mod bank;
mod bits;
mod buffer;
mod buffers;
mod numbers;
mod plan;
mod refusal;
mod removal;
mod rooms;
mod rows;
mod spans;
mod states;
mod trim;
mod xact_state;

pub use bank::SlruBank;
pub use numbers::{put_number, read_number};
pub use plan::{PlanStep, commits_each_once, plan_step, run_end};
pub use refusal::BankRefusal;
pub use rooms::BankRooms;
pub use rows::PageSpan;
pub use states::{set_states, state};
pub use trim::trim_after;
pub use xact_state::State;
