//! Tests of recovery over a media in memory, with crashes before it and within it: what a second life begins with, worked
//! out by hand (docs/RECOVERY.md). They stand in a crate of their own so that recovery isn't proved once more with them.
#![tactic(auto)]

#[cfg(test)]
mod cluster;
#[cfg(test)]
mod multis;
#[cfg(test)]
mod prefix_tests;
#[cfg(test)]
mod recover_tests;
