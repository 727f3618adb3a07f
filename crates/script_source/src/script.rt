//! Why a source gives no script that sessions can run.

/// Why a source gives no script.
#[derive(Drop)]
pub enum NoScript {
    /// Its bytes are refused. The line that tells where, and why.
    Refused(Vec<u8>),
    /// The source failed.
    ReadFault,
    /// Out of memory.
    Memory,
}
