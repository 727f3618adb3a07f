//! Tests of the page bank and of the four stores on it: what no clause says, and the very bytes of their pages
//! (docs/PAGES.md). They stand in a crate of their own so that banks and stores aren't proved once more with them.
#![tactic(auto)]

#[cfg(test)]
mod bank_tests;
#[cfg(test)]
mod banks;
#[cfg(test)]
mod counted;
#[cfg(test)]
mod stores;
