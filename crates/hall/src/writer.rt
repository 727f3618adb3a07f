//! Who adds to a history.

/// Who may add to a history. The history of a lock is added to by whoever is inside that lock. The
/// history of a published word is added to by one session, or by whoever is inside one lock.
pub enum Writer {
    /// The pass that has this name.
    Session(u64),
    /// Whichever pass is inside this lock.
    Lock(u64),
}
