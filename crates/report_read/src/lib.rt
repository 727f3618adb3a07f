//! A report read back, exactly: `read_report` is the inverse of `print_report`.
#![tactic(auto)]

mod growing;
mod law;
mod multi_history;
mod naming;
mod read;
mod sharing;
mod steps;
mod take;
mod told;
mod words;

pub use law::{no_text_of_two, text_is_of_what_is_read};
pub use read::{ReadRefusal, read_report};
