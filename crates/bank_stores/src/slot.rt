// A slot as a reader meets it.
use tx_events::{Mode, Xid};

/// What a slot of a multixact's members holds.
#[derive(Clone, Copy, Debug, PartialEq, Eq)]
pub enum Slot {
    /// Its id is 0, whatever its mode.
    Unused,
    Is { x: Xid, mode: Mode },
    /// Its id isn't 0 and its mode is above 5.
    Odd { byte: u8 },
}
