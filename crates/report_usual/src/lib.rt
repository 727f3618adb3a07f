//! The commonest lines of a report, compared as they are read, so that what is found needn't be printed again. Any
//! other line is for `report_lines`.
#![tactic(auto)]

mod lists;
mod lists_told;
mod spelled;
mod usual;
mod usual_events;
mod usual_multis;
mod usual_records;

pub use usual::usual_line;
pub use usual_events::usual_event;
pub use usual_multis::usual_multi_event;
pub use usual_records::usual_record;
