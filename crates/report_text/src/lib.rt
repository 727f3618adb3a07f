//! The report that the tool writes, as text (docs/SCRIPT-AND-REPORT.md).
#![tactic(auto)]

mod command;
mod event;
mod member;
mod numbers;
mod printed;
mod record;
mod refusal;
mod reply;
mod report;
mod step;
mod text;

pub use event::{put_event, put_multi_event};
pub use printed::is_same_snapshot;
pub use record::put_record_line;
pub use report::{begin_report, print_report, put_crash, put_life_line, put_log_line};
pub use step::{put_command_line, put_line_front, put_round_line, put_snapshot_end, put_step};
pub use text::Text;
