//! That what a bank's calls do to its pages and its images keeps what these stand for: the list of the bank's lock.
#![tactic(auto)]

/// The laws. The functions do nothing; their contracts are the laws.
pub mod laws;
