//! A call that can't go on.
use std::sync::Wait;

/// Waits for ever, where a call met what isn't shown not to come: that the page of an open id is cut, which no life of
/// few ids has, or that the log's counters would be no base behind a commit record.
pub fn stall<R: Wait>(rt: &R)
    ensures { ⊥ }
{
    for _ in rt.forever() {}
    unreachable!()
}
