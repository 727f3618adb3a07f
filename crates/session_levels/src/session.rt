//! How a session stands.
ghost use Rattle.session_levels.specs.Stands.{IsFresh};

use std::alloc::Global;
use tx_events::FullXid;
use tx_model::{Name, SharedSnap};

/// A registered snapshot of a session: its name, the command that took it, its place in the history, and its data.
#[derive(Drop)]
pub struct RegisteredSnapshot {
    pub name: Name,
    pub command: u64,
    pub place: usize,
    pub snapshot: SharedSnap,
}

/// How a session stands.
#[derive(Drop)]
pub struct Session {
    /// How many commands it has run in this life.
    pub commands: u64,
    /// The ids of its levels, from the transaction down. A level behind one without an id has none.
    pub level_ids: Vec<FullXid>,
    /// How many levels have no id yet.
    pub unnamed: usize,
    /// Its open ids, ascending.
    pub open_ids: Vec<FullXid>,
    pub registered: Vec<RegisteredSnapshot>,
}

impl Session {
    /// A session that has done nothing yet.
    pub fn new(alloc: Global) -> Session
        ensures { IsFresh result }
    {
        Session {
            commands: 0,
            level_ids: Vec::new(alloc),
            unnamed: 0,
            open_ids: Vec::new(alloc),
            registered: Vec::new(alloc),
        }
    }
}
