//! A search of ids that ascend.
ghost use Rattle.std.specs.Prelude.{◌≡◌};
ghost use Rattle.tx_events.specs.IdLists.{has, Ascending};

use crate::full_xid::FullXid;

/// Whether the id is among these, which ascend. At most the logarithm of their number of comparisons.
pub fn is_listed(ids: &[FullXid], x: FullXid) -> bool
    ensures { Ascending ids.now → result ≡ has ids.now x }
{
    ids.binary_search(&x).is_ok()
}
