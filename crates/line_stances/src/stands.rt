//! How a session stands.
ghost use Rattle.std.specs.Prelude.{◌≡◌, ◌≢◌, ◌≤◌, ◌↔◌, IsTrue, []};
ghost use Rattle.tx_model.specs.Stance.{lacking, snap_of, top_level};

use crate::standing::Standing;
use tx_events::{FullXid, Name};

/// Whether the session has a transaction.
pub fn is_open(standing: &Standing) -> bool
    ensures { IsTrue result ↔ (standing.now.levels ≢ []) }
{
    standing.levels.depth() > 0
}

/// Whether a level of it has no id.
pub fn is_lacking(standing: &Standing) -> bool
    ensures { IsTrue result ↔ (1 ≤ lacking standing.now.levels) }
{
    standing.levels.lacking() > 0
}

/// The command that took the session's snapshot of this name.
pub fn taken_as(standing: &Standing, name: &Name) -> Option<u64>
    ensures { result ≡ snap_of name.now standing.now }
{
    standing.snaps.command_of(name.items())
}

/// The id of the session's transaction, where it has one.
pub fn top_of(standing: &Standing) -> Option<FullXid>
    ensures { result ≡ top_level standing.now.levels }
{
    standing.levels.top()
}
