//! Tests of the log over volumes in memory, and of its records: bytes, places and numbers worked out by hand from its format
//! (docs/LOG.md). They stand in a crate of their own so that the log isn't proved once more with them.
#![tactic(auto)]

#[cfg(test)]
mod crash_tests;
#[cfg(test)]
mod format_tests;
#[cfg(test)]
mod record_tests;
#[cfg(test)]
mod test_disk;
#[cfg(test)]
mod test_log;
#[cfg(test)]
mod test_rec;
