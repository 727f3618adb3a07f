//! What a command pinned, or raised to.
ghost use Rattle.std.specs.Prelude.{◌≡◌, ◌↔◌, IsTrue, Some, map, slice_get};
ghost use Rattle.tx_events.specs.Multis.{multi_by};
ghost use Rattle.report_law.specs.MultiLines.{IsPinnedOrNext};
ghost use Rattle.place_columns.specs.Counted.{AreCounts};
ghost use Rattle.place_columns.specs.OwnPlaces.{AnyPlace, ArePlacesOf};
ghost use Rattle.multi_rules.specs.Own.{Owner, PinsOrRaises};

use place_columns::GivenCounts;
use tx_events::{FullMulti, MultiEvent};

/// Whether the command pins at this place, where it has an event, or raises there while this multixact is the next one.
fn pins_or_raises(counts: &GivenCounts, multis: &[MultiEvent], place: u64, multi: FullMulti) -> bool
    ghost o: { Owner }
    requires counts { AreCounts o.base o.events o.all counts.now }
    requires all { multis.now ≡ o.all }
    requires its { slice_get (map multi_by o.all) place ≡ Some o.by }
    ensures { IsTrue result ↔ PinsOrRaises o.base o.all o.by multi place }
{
    match &multis[place as usize] {
        MultiEvent::Hold { .. } => true,
        MultiEvent::Raise { .. } => counts.made[place as usize] == multi.number(),
        _ => false,
    }
}

/// Whether the command pinned a multixact, or this one was the next where it raised. These are the places of its events.
pub fn is_pinned_or_next(
    counts: &GivenCounts,
    multis: &[MultiEvent],
    places: &[u64],
    multi: FullMulti,
) -> bool
    ghost o: { Owner }
    requires counts { AreCounts o.base o.events o.all counts.now }
    requires all { multis.now ≡ o.all }
    requires places { ArePlacesOf o.by (map multi_by o.all) places.now }
    ensures { IsTrue result ↔ IsPinnedOrNext o.base o.all o.by multi }
{
    is_any_place(counts, multis, places, multi)
}

fn is_any_place(
    counts: &GivenCounts,
    multis: &[MultiEvent],
    places: &[u64],
    multi: FullMulti,
) -> bool
    ghost o: { Owner }
    requires counts { AreCounts o.base o.events o.all counts.now }
    requires all { multis.now ≡ o.all }
    requires places { ArePlacesOf o.by (map multi_by o.all) places.now }
    ensures { IsTrue result ↔ AnyPlace (PinsOrRaises o.base o.all o.by multi) places.now }
{
    for place in places {
        if pins_or_raises(counts, multis, *place, multi) {
            return true;
        }
    }
    false
}
