//! Want of memory.

/// There is no memory for a table.
#[derive(Debug, Drop, PartialEq, Eq)]
pub struct Memory;
