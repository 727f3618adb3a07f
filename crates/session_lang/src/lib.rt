//! The script that the tool reads, as text (docs/SCRIPT-AND-REPORT.md). The text of the report that it writes is
//! `report_text`.
#![tactic(auto)]

mod items;
pub mod laws;
mod lines;
mod looks;
mod packed;
mod parser;
mod script;

pub use items::{ItemList, Items};
pub use lines::{line_of, next_line};
pub use parser::{Front, Reading, parse};
pub use report_text::print_report;
pub use script::{Between, Dump, Item, ParseRefusal, Script};
pub use script_lines::Kind;
