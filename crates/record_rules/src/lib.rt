//! What the records of a life say, by its histories and lines: how its transactions ended, what it announced, which
//! counters its checkpoints had, which records are the first of their kind, and which record is the first that isn't
//! lawful; and where a life may begin. See docs/CHECKER.md.
#![tactic(auto)]

mod announced;
mod answers;
mod asked;
mod counts;
mod either;
mod ends;
mod firsts;
mod law;
mod log;
mod records;
mod starts;
mod transactions;

pub use announced::{Announced, announced_of, is_announced, is_announced_multi};
pub use asked::is_asked;
pub use counts::{CounterCounts, CountersKey, count_one, how_often};
pub use firsts::{Seen, is_first, none_seen, note_record};
pub use law::starts_go_by_the_last;
pub use log::{first_no_base, is_lawful_log};
pub use records::first_unlawful_record;
pub use starts::{begins_behind, begins_log, counters_behind};
pub use transactions::{Transactions, is_abort_recorded, is_commit_recorded, transactions_of};
