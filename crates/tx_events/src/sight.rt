//! The one rule of visibility (`XidInMVCCSnapshot` in `src/backend/utils/time/snapmgr.c`, as
//! `HeapTupleSatisfiesMVCC` in `src/backend/access/heap/heapam_visibility.c` asks it), in two steps, so that a caller
//! that reads parents from pages may wait and fail between them.
ghost use Rattle.std.specs.Prelude.{◌≡◌, ◌<◌, true};
ghost use Rattle.tx_events.specs.IdLists.{Ascending};
ghost use Rattle.tx_events.specs.Sights.{IsSightRight, IsTopSightRight, sight_by, top_sight_by};

use crate::full_xid::FullXid;
use crate::listed::is_listed;
use crate::said::{Says, said_of};
use crate::snapshot::SnapData;

/// What a snapshot shows of an id.
#[derive(Clone, Copy, Debug, PartialEq, Eq)]
pub enum Sight {
    Seen,
    Hidden,
    /// The snapshot overflowed, and the id's topmost parent decides: `sight_of_top`.
    AskParents,
}

/// What the snapshot shows of `x`, of which was read whether it has `committed`. The state is read before the parents are
/// asked for. Takes at most the logarithm of what the snapshot lists.
pub fn sight_of(snap: &SnapData, x: FullXid, committed: bool) -> Sight
    ensures value { Ascending snap.now.xip → Ascending snap.now.subxip → result ≡ sight_by snap.now x committed }
    ensures right { IsSightRight snap.now x committed result }
{
    if x >= snap.xmax || !committed {
        return Sight::Hidden;
    }
    match said_of(snap, x) {
        Says::Ended => Sight::Seen,
        Says::Running => Sight::Hidden,
        Says::AskParents => Sight::AskParents,
    }
}

/// Whether the snapshot shows an id of which `sight_of` answered `AskParents`: `topmost` is its topmost parent
/// (`SubTransGetTopmostTransaction` in `src/backend/access/transam/subtrans.c`), or an ancestor of it below the xmin.
pub fn sight_of_top(snap: &SnapData, topmost: FullXid) -> bool
    ensures value { Ascending snap.now.xip → result ≡ top_sight_by snap.now topmost }
    ensures below { topmost < snap.now.xmin → result ≡ true }
    ensures right { IsTopSightRight snap.now topmost result }
{
    had_ended(snap, topmost)
}

fn had_ended(snap: &SnapData, topmost: FullXid) -> bool
    ensures value { Ascending snap.now.xip → result ≡ top_sight_by snap.now topmost }
    ensures below { topmost < snap.now.xmin → result ≡ true }
{
    topmost < snap.xmin || !is_listed(snap.xip.items(), topmost)
}
