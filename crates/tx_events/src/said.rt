//! What a snapshot tells of when an id ended: by its limits, and by its lists where they hold the id.
ghost use Rattle.std.specs.Prelude.{◌≡◌};
ghost use Rattle.tx_events.specs.IdLists.{Ascending};
ghost use Rattle.tx_events.specs.Says.{says_of, SaysRight};

use crate::full_xid::FullXid;
use crate::listed::is_listed;
use crate::snapshot::SnapData;

/// How an id stood when the snapshot was taken.
#[derive(Clone, Copy, Debug, PartialEq, Eq)]
pub enum Says {
    /// It ran, or it was given later.
    Running,
    /// It had ended, or it was never given.
    Ended,
    /// The snapshot can't tell; its topmost parent tells.
    AskParents,
}

/// How `x` stood. The answer is right for every id, of whatever legal history the snapshot was taken: an id runs,
/// counts as later, or neither; parents have to be asked exactly where the snapshot overflowed and `x` is from `xmin`
/// to below `xmax`. Takes at most the logarithm of what the snapshot lists.
pub fn said_of(snap: &SnapData, x: FullXid) -> Says
    ensures value { Ascending snap.now.xip → Ascending snap.now.subxip → result ≡ says_of snap.now x }
    ensures right { SaysRight snap.now x result }
{
    say(snap, x)
}

fn say(snap: &SnapData, x: FullXid) -> Says
    ensures { Ascending snap.now.xip → Ascending snap.now.subxip → result ≡ says_of snap.now x }
{
    if x < snap.xmin {
        return Says::Ended;
    }
    if x >= snap.xmax {
        return Says::Running;
    }
    if snap.overflowed {
        return Says::AskParents;
    }
    if is_listed(snap.xip.items(), x) || is_listed(snap.subxip.items(), x) {
        Says::Running
    } else {
        Says::Ended
    }
}
