//! Tests of the lock table, by two counters over it, and of the group list: members that join, drain and hand back in turn
//! (docs/CONCURRENCY.md). They stand in a crate of their own so that neither is proved once more with them.
#![tactic(auto)]

#[cfg(test)]
mod count_tests;
#[cfg(test)]
mod member_tests;
