//! What each session promises of its own lines, whatever others do meanwhile, and the laws by which the promises of all
//! sessions make a lawful report. docs/ENGINE.md tells it in words.
#![tactic(auto)]

/// The laws. The functions do nothing; their contracts are the laws.
pub mod laws;
