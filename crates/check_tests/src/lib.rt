//! Worked histories for the replays and for what the checker keeps of them, with numbers from the rules (docs/HISTORY.md,
//! docs/MULTIXACTS.md, docs/PAGES.md, docs/CHECKER.md); and worked lines for the refusals that go by how a session stands
//! (docs/SCRIPT-AND-REPORT.md). Most are tables, over which one loop of each kind goes.
#![tactic(auto)]

#[cfg(test)]
mod events;
#[cfg(test)]
mod hold_tests;
#[cfg(test)]
mod legal_tests;
#[cfg(test)]
mod line_tests;
#[cfg(test)]
mod lives;
#[cfg(test)]
mod mark_tests;
#[cfg(test)]
mod multi_lives;
#[cfg(test)]
mod multi_tests;
#[cfg(test)]
mod place_tests;
#[cfg(test)]
mod replay_tests;
#[cfg(test)]
mod standing_tests;
