//! What a snapshot shows of an id before anything is read of it.
ghost use Rattle.std.specs.Prelude.{◌≤◌};
ghost use Rattle.xact_reads.specs.Glances.{HasLimits, IsGlance};

use tx_events::{FullXid, Sight, Xid, near};
use tx_model::SharedSnap;

/// What a snapshot shows of an id before anything is read of it.
#[derive(Clone, Copy)]
pub(crate) struct Glance {
    /// The full id that is nearest to the snapshot's xmax.
    pub id: FullXid,
    /// The snapshot's xmin.
    pub xmin: FullXid,
    /// What is shown of the id if it has committed.
    pub sight: Sight,
}

/// Looks for a stored id in a snapshot (the first part of `XidInMVCCSnapshot` in `src/backend/utils/time/snapmgr.c`).
/// None where no full id is near the snapshot's xmax.
pub(crate) fn glance_at(snapshot: &SharedSnap, x: Xid) -> Option<Glance>
    requires normal { 3 ≤ x.number }
    requires limits { HasLimits snapshot.now }
    ensures { IsGlance snapshot.now x.number result }
{
    match near(snapshot.xmax(), x) {
        Some(id) => Some(Glance {
            id,
            xmin: snapshot.xmin(),
            sight: snapshot.sight_of(id, true),
        }),
        None => None,
    }
}
