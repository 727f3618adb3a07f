//! Which records the log can take next: a truncation's always, and behind one each record that a session has to append.
#![tactic(auto)]

/// The laws. The functions do nothing; their contracts are the laws.
pub mod laws;
