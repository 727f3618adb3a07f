//! The verdict of a snapshot on an id whose state was read, with the law that it is right.
ghost use Rattle.std.specs.Prelude.{◌≡◌};
ghost use Rattle.tx_events.specs.IdLists.{Ascending};
ghost use Rattle.tx_core.specs.Verdict.{is_committed, verdict, IsRight};

use crate::entry::State;
use tx_events::{FullXid, Sight, SnapData, sight_of, sight_of_top};

/// Whether a snapshot sees the id `x`, of which `state` was read: the rule is `tx_events`' (`sight_of`,
/// `sight_of_top`). `topmost` is the topmost parent that was found for `x`, or an ancestor below the snapshot's xmin; only
/// an overflowed snapshot asks for it. Where the id is at or past the snapshot's xmax, the answer is no, whatever was
/// read. Takes at most the logarithm of what the snapshot lists.
pub fn is_seen(snap: &SnapData, state: Option<State>, x: FullXid, topmost: FullXid) -> bool
    ensures value { Ascending snap.now.xip → Ascending snap.now.subxip → result ≡ verdict snap.now state topmost x }
    // where the lists keep the invariant and the state was read in them, this is whether x is visible at the snapshot
    ensures visible { IsRight snap.now state topmost x result }
{
    answer(snap, state, x, topmost)
}

fn has_committed(state: Option<State>) -> bool
    ensures { result ≡ is_committed state }
{
    matches!(state, Some(State::Committed))
}

fn answer(snap: &SnapData, state: Option<State>, x: FullXid, topmost: FullXid) -> bool
    ensures { Ascending snap.now.xip → Ascending snap.now.subxip → result ≡ verdict snap.now state topmost x }
{
    match sight_of(snap, x, has_committed(state)) {
        Sight::Seen => true,
        Sight::Hidden => false,
        Sight::AskParents => sight_of_top(snap, topmost),
    }
}
