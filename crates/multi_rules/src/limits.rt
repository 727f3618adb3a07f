//! To which multixact the oldest one could be raised, at each place of a history.
ghost use Rattle.std.specs.Prelude.{◌≡◌, ◌+◌, ◌≤◌, IfOk, length, take};
ghost use Rattle.tx_events.specs.Multis.{pins};
ghost use Rattle.multi_rules.specs.Limits.{AreHeldLimits, AreLimitsBelow, IsLimitAt, IsTally};

use crate::pins::{PinCounts, least_pinned, note_event};
use counted_map::CountedMap;
use history_places::MultiPlaces;
use std::alloc::Global;
use tx_events::Memory;

/// The limit of raises at a place. In the order of limits, then of places.
#[derive(Clone, Copy, Debug, PartialEq, Eq, PartialOrd, Ord)]
pub struct LimitAt {
    pub limit: u64,
    pub place: u64,
}

/// The limit at this place, where so many are pinned.
fn limit_at(places: &MultiPlaces, place: u64, counts: &PinCounts) -> LimitAt
    requires within { place ≤ length places.now.events }
    requires tally { IsTally (pins (take place places.now.events)) counts.now }
    ensures { IsLimitAt places.now.base places.now.events place result }
{
    LimitAt {
        limit: least_pinned(places.next_at(place), counts),
        place,
    }
}

/// The limits at all places, one after the other.
fn limits_along(alloc: Global, places: &MultiPlaces) -> Result<Vec<LimitAt>, Memory>
    ensures { IfOk result (λ limits. AreLimitsBelow places.now.base places.now.events (length places.now.events + 1) limits.items) }
{
    let mut counts = CountedMap::new(alloc);
    let mut limits = Vec::new(alloc);
    limits.push(limit_at(places, 0, &counts))?;
    let events = places.events();
    for (place, e) in events.iter().enumerate() {
        note_event(&mut counts, e)?;
        limits.push(limit_at(places, place as u64 + 1, &counts))?;
    }
    Ok(limits)
}

/// The limit of raises at each place of the history: the least of the next multixact and all that are pinned there. Once a
/// life: takes a sort of the history's places.
pub fn held_limits(alloc: Global, places: &MultiPlaces) -> Result<Vec<LimitAt>, Memory>
    ensures { IfOk result (λ limits. AreHeldLimits places.now.base places.now.events limits.items) }
{
    let mut limits = limits_along(alloc, places)?;
    limits.sort()?;
    Ok(limits)
}
