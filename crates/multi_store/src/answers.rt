// What a call of the generator answers.
use tx_events::FullMulti;

/// A multixact that was given now.
#[derive(Clone, Copy, Debug, PartialEq, Eq)]
pub struct MultiGiven {
    pub multi: FullMulti,
    /// Where its members begin, counted in full.
    pub offset: u64,
    /// Whether it is at or past the warning limit.
    pub warn: bool,
}

/// A multixact that was pinned now, and what tells where its members are.
#[derive(Clone, Copy, Debug, PartialEq, Eq)]
pub struct Held {
    pub multi: FullMulti,
    /// Whether it is the last one that was given.
    pub last: bool,
    /// The next free offset: the last multixact ends there.
    pub end: u64,
    /// Where its members begin, in full. None for a multixact that the life began with.
    pub start: Option<u64>,
    /// The offset that was free when the life began: none that it began with begins past it.
    pub most: u64,
}
