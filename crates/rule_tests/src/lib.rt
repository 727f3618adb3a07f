//! Tests of the rules on ids, limits, pages, snapshots and locks: numbers at the ends of their ranges and at the wrap, worked out
//! by hand; and of facts that are noted. Worked runs of the ProcArray and of the generator of multixacts, with numbers from the
//! rules (docs/HISTORY.md, docs/MULTIXACTS.md). They stand in a crate of their own so that the base crates and the tables
//! aren't proved once more with them.
#![tactic(auto)]

#[cfg(test)]
mod base_tests;
#[cfg(test)]
mod count_tests;
#[cfg(test)]
mod fact_tests;
#[cfg(test)]
mod horizon_tests;
#[cfg(test)]
mod limit_tests;
#[cfg(test)]
mod multi_tests;
#[cfg(test)]
mod numbers;
#[cfg(test)]
mod page_tests;
#[cfg(test)]
mod proc_driver;
#[cfg(test)]
mod proc_tests;
#[cfg(test)]
mod sight_tests;
#[cfg(test)]
mod verdict_tests;
