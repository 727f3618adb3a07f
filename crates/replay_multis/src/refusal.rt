// Why the volume of a bank wasn't restored.

/// Why the pages of a bank weren't restored.
#[derive(Clone, Copy, Debug, PartialEq, Eq)]
pub enum RestoreRefusal {
    /// The volume failed, and its count of faults rose.
    DiskFault,
    /// Out of memory.
    Memory,
}
