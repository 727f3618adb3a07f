//! Which snapshots an id wasn't visible to yet.
ghost use Rattle.std.specs.Prelude.{◌≡◌, ◌==◌, ℕ, List, length};
ghost use Rattle.std.specs.BTreeSet.{contains};
ghost use Rattle.std.specs.List.{list_any};
ghost use Rattle.std.specs.Ordering.{nat_cmp};
ghost use Rattle.tx_events.specs.Base.{IsBase};
ghost use Rattle.tx_events.specs.History.{IsLegal};
ghost use Rattle.multi_rules.specs.Snapped.{AreFirst, AreInHistory};
ghost use Rattle.multi_rules.specs.Telling.{IsUnseen};

use crate::taken::Taken;
use history_places::{HistoryPlaces, was_visible};
use std::collections::BTreeSet;
use tx_events::FullXid;

/// The history is legal, and its base is one.
pub fn legal(places: &HistoryPlaces)
    ensures legal { IsLegal places.now.base places.now.events }
    ensures base { IsBase places.now.base }
{
    let _events = places.replay().events();
}

/// How many of the snapshots the id wasn't visible to yet.
pub fn unseen(
    places: &HistoryPlaces,
    committed: &BTreeSet<u64>,
    taken: &[Taken],
    id: FullXid,
) -> u64
    ghost ids: { List ℕ }
    requires known { (y : ℕ) → contains nat_cmp committed.now y ≡ list_any (λ z. z == y) ids }
    requires taken { AreInHistory (length places.now.events) taken.now }
    ensures { AreFirst (IsUnseen ids places.now.events id) taken.now result }
{
    legal(places);
    let mut from = 0;
    let mut end = taken.len();
    while from < end {
        let middle = from + (end - from) / 2;
        if was_visible(places.replay(), committed, taken[middle].place, id) {
            end = middle;
        } else {
            from = middle + 1;
        }
    }
    from as u64
}
