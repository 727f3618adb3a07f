//! Which report is lawful, and which line of one that isn't is the first unlawful one. The rules of one life's commands
//! that a run promises stand in `life_law`; these here are those of every report that can be read, with many lives,
//! multixacts, checkpoints and truncations. See docs/SCRIPT-AND-REPORT.md.
#![tactic(auto)]

/// Worked reports, lawful and not. The functions of these modules do nothing; their contracts are the laws.
pub mod laws;
/// The lives of a run, one behind a crash of the other.
pub mod lives;
/// A life with multixacts that is told right, and wrong.
pub mod multis;
