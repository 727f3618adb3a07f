//! What happens under the ProcArray's lock.
ghost use Rattle.std.specs.Prelude.{◌≡◌};
ghost use Rattle.tx_events.specs.Events.{by_of};

use crate::FullXid;
use crate::by_words::ByWords;
use crate::name::Name;
use crate::sequence::{Copied, Memory, Sequence};

/// The command that an event belongs to: the session's number, and the number of the command among the
/// session's commands in this life, from 1.
#[derive(Clone, Copy, Debug, PartialEq, Eq)]
pub struct By {
    pub session: u32,
    pub command: u64,
}

/// What happened under the lock of the ProcArray (`src/backend/storage/ipc/procarray.c`, `varsup.c`).
#[derive(Clone, Drop)]
pub enum Event {
    /// A top-level id was given.
    Id {
        by: ByWords,
        id: FullXid,
    },
    /// A subtransaction's id was given below `parent`.
    Sub {
        by: ByWords,
        parent: FullXid,
        id: FullXid,
    },
    /// The savepoint of `id` was rolled back.
    Undo {
        by: ByWords,
        id: FullXid,
    },
    /// The transaction of `top` committed.
    Commit {
        by: ByWords,
        top: FullXid,
    },
    /// The transaction of `top` aborted.
    Abort {
        by: ByWords,
        top: FullXid,
    },
    /// A snapshot was taken under this name.
    Snap {
        name: Name,
        by: ByWords,
    },
    /// It was dropped.
    SnapDrop {
        name: Name,
        by: ByWords,
    },
    /// The oldest id was announced.
    Oldest {
        by: ByWords,
        oldest: FullXid,
    },
    /// It was asked how the transaction of `id` stands.
    Ask {
        by: ByWords,
        id: FullXid,
    },
}

const _: () = prove!(size_of::<Event>() == 32);

impl Event {
    /// The command that it belongs to.
    pub fn by(&self) -> By
        ensures { result ≡ by_of self.now }
    {
        match self {
            Event::Id { by, .. } => by.get(),
            Event::Sub { by, .. } => by.get(),
            Event::Undo { by, .. } => by.get(),
            Event::Commit { by, .. } => by.get(),
            Event::Abort { by, .. } => by.get(),
            Event::Snap { by, .. } => by.get(),
            Event::SnapDrop { by, .. } => by.get(),
            Event::Oldest { by, .. } => by.get(),
            Event::Ask { by, .. } => by.get(),
        }
    }
}

impl Copied for Event {
    fn copy(&self) -> Result<Self, Memory> {
        Ok(self.clone()?)
    }
}

/// A history: events in their order.
pub type EventList = Sequence<Event>;
