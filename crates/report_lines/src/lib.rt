//! The lines of a report read back, each exactly: commands with their replies, checkpoints and dumps, events, multixact
//! events, records, and the lines that begin and end a life. A line is read by its words, printed again and compared.
#![tactic(auto)]

mod command;
mod cut;
mod event;
mod fixed;
mod law;
mod life;
mod multi;
mod record;
mod step;

pub use command::read_line;
pub use cut::next_line;
pub use event::read_event;
pub use fixed::{crash_at, is_end, is_history, is_multis, is_title};
pub use law::no_line_of_two;
pub use life::{LogHead, Start, read_log_head, read_start};
pub use multi::read_multi_event;
pub use record::read_record;
pub use step::{is_round, read_step};
