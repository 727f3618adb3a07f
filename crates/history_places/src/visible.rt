//! What was visible in a life that began with some ids as committed.
ghost use Rattle.std.specs.Prelude.{◌≡◌, ◌==◌, ℕ, ◌≤◌, List, length, take};
ghost use Rattle.std.specs.BTreeSet.{contains};
ghost use Rattle.std.specs.List.{list_any};
ghost use Rattle.std.specs.Ordering.{nat_cmp};
ghost use Rattle.tx_events.specs.Visible.{is_visible};

use history_check::HistoryReplay;
use std::collections::BTreeSet;
use tx_events::FullXid;

/// Whether the id was visible at this place of the history. These are the numbers of the ids that the base has as committed.
/// Takes the logarithm of their number, and of that of the ids.
pub fn was_visible(
    replay: &HistoryReplay,
    committed: &BTreeSet<u64>,
    place: u64,
    x: FullXid,
) -> bool
    ghost ids: { List ℕ }
    requires known { (y : ℕ) → contains nat_cmp committed.now y ≡ list_any (λ z. z == y) ids }
    requires place { place ≤ length replay.now.events }
    ensures { result ≡ is_visible ids (take place replay.now.events) x }
{
    if committed.contains(&x.number()) {
        return true;
    }
    replay.was_visible(&[], place, x)
}
