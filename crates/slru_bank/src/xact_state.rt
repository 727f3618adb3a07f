// The four states of an id.
/// What the commit log holds of a transaction (`XidStatus`).
#[derive(Clone, Copy, Debug, PartialEq, Eq)]
pub enum State {
    InProgress,
    Committed,
    Aborted,
    /// Counts as committed exactly where the parent did commit.
    SubCommitted,
}
