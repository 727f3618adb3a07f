//! Laws on what a run writes: its report is one that can be read back, and what a generated one counts.
#![tactic(auto)]

/// What a report of a generated script counts.
pub mod count_laws;
/// The report of a run is read back.
pub mod laws;
