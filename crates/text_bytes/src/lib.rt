//! Bytes that grow at their end, by pieces, numbers and names.
#![tactic(auto)]

mod bytes;
mod room;

pub use bytes::Bytes;
