//! What a member is to the others that wait with it.

/// How a member stands in the chain that it joined.
#[derive(Clone, Copy, Debug, PartialEq, Eq)]
pub enum Role {
    /// It found no one waiting, so it is to drain the list and to hand all of the batch back.
    Leader,
    /// Others waited already. The first of them will hand it back.
    Follower,
}
