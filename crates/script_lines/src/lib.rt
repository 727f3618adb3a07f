//! The lines of a script, each by itself: its words, what they say, and the kind of its first fault
//! (docs/SCRIPT-AND-REPORT.md).
#![tactic(auto)]

mod argument;
mod command;
mod directive;
mod header;
mod kind;
mod member;
mod said;
mod word;

pub use argument::number_in;
pub use command::command_at;
pub use directive::{Directive, directive_at};
pub use header::{Header, is_header_word};
pub use kind::{Kind, Stop};
pub use said::{IdCommand, NamedCommand, PlainCommand, Said};
pub use word::{is_plain, next_word};
