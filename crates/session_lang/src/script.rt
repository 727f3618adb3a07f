//! A script: its sessions, its header and its lines.
use crate::items::ItemList;
use script_lines::Kind;
use tx_model::{Command, Copied, Counters, DumpOf, How, Memory, NameList};

/// A line of a script that isn't of its header.
#[derive(Clone, Drop)]
pub enum Item {
    /// A command of the session of this number.
    Run { session: u32, command: Command },
    /// The end of a round.
    Round,
    /// A checkpoint.
    Checkpoint,
    /// A crash, and the opening after it.
    Crash { how: How },
    /// A dump of `length` bytes from place `at` on.
    Dump { what: DumpOf, at: u64, length: u32 },
}

impl Copied for Item {
    fn copy(&self) -> Result<Self, Memory> {
        Ok(self.clone()?)
    }
}

/// The bytes that a dump shows: `length` of them from place `at` on.
#[derive(Clone, Copy, Debug, PartialEq, Eq)]
pub struct Dump {
    pub what: DumpOf,
    pub at: u64,
    pub length: u32,
}

/// What a directive asks for between two rounds.
#[derive(Clone, Copy, Debug, PartialEq, Eq)]
pub enum Between {
    /// A checkpoint.
    Checkpoint,
    /// The bytes that a dump shows.
    Dump(Dump),
}

/// A script: the counters and the number of banks that its header gives, the sessions' names in the order in which
/// they appear, and its lines.
#[derive(Drop)]
pub struct Script {
    pub base: Counters,
    pub banks: u32,
    pub names: NameList,
    pub items: ItemList,
}

/// Why bytes aren't taken as a script.
#[derive(Clone, Copy, Debug, PartialEq, Eq)]
pub enum ParseRefusal {
    /// They are none: what is wrong with the first line that has a fault. Lines count from 1; 0 is the script as a whole.
    Fault { line: u64, kind: Kind },
    /// Want of memory.
    Memory,
}
