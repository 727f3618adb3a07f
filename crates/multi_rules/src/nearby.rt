//! To which snapshots an id is near.
ghost use Rattle.std.specs.Prelude.{◌≡◌};
ghost use Rattle.multi_rules.specs.Snapped.{AreFirst, IsFarBelow, IsNotFarAbove, NeverFall, is_far_below, is_not_far_above};

use crate::taken::Taken;
use tx_events::FullXid;

/// Whether the id is 2^31 or more above the xmax.
fn is_far_below(t: Taken, id: FullXid) -> bool
    ensures { result ≡ is_far_below id t }
{
    id.number().saturating_sub(t.xmax.number()) >= 1 << 31
}

/// Whether the xmax is at most 2^31 above the id.
fn is_not_far_above(t: Taken, id: FullXid) -> bool
    ensures { result ≡ is_not_far_above id t }
{
    t.xmax.number().saturating_sub(id.number()) <= 1 << 31
}

/// How many of the snapshots are so far below the id.
pub fn far_below(taken: &[Taken], id: FullXid) -> u64
    requires { NeverFall taken.now }
    ensures { AreFirst (IsFarBelow id) taken.now result }
{
    taken.partition_point(|t| is_far_below(*t, id)) as u64
}

/// How many of them aren't so far above it.
pub fn not_far_above(taken: &[Taken], id: FullXid) -> u64
    requires { NeverFall taken.now }
    ensures { AreFirst (IsNotFarAbove id) taken.now result }
{
    taken.partition_point(|t| is_not_far_above(*t, id)) as u64
}
