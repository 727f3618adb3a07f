//! A command as the words of its line say it.

use tx_events::Xid;
use tx_model::PairList;

/// A command without arguments.
#[derive(Clone, Copy)]
pub enum PlainCommand {
    Begin,
    Save,
    Write,
    Release,
    Undo,
    Commit,
    Abort,
    Trim,
    Horizon,
}

/// A command that names a snapshot, and maybe has a stored number.
#[derive(Clone, Copy)]
pub enum NamedCommand {
    Snap,
    DropSnap,
    See,
    SeeMulti,
}

/// A command of an id in full.
#[derive(Clone, Copy)]
pub enum IdCommand {
    Status,
    Freeze,
    MultiFreeze,
}

/// A command as its words say it: a snapshot's name stands in the line.
#[derive(Drop)]
pub enum Said<'a> {
    Plain {
        command: PlainCommand,
    },
    /// `number` is 0 where the command has none.
    Named {
        command: NamedCommand,
        number: u32,
        name: &'a [u8],
    },
    Did {
        x: Xid,
    },
    OfId {
        command: IdCommand,
        number: u64,
    },
    Multi {
        members: PairList,
    },
}
