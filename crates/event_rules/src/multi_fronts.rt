//! Multixact events up to the first that may not come.
ghost use Rattle.std.specs.Prelude.{◌≡◌, ◌≤◌, ◌↔◌, List, Some, IfOk, IsTrue, length, slice_get, take};
ghost use Rattle.tx_events.specs.declared.multi.MultiEvent.{MultiEvent};
ghost use Rattle.tx_events.specs.declared.record.Counters.{Counters};
ghost use Rattle.tx_events.specs.Base.{IsBase};
ghost use Rattle.tx_events.specs.Multis.{AreLegalMultis, MultiMayCome};
ghost use Rattle.history_places.specs.declared.start.Start.{Start};
ghost use Rattle.history_places.specs.Starts.{BeginsAs, FitsBase};
ghost use Rattle.event_rules.specs.Fronts.{IsMultiFront};

use history_places::{MultiPlaces, Start};
use std::alloc::Global;
use tx_events::{Counters, Memory, MultiEvent};

/// The longest front of these multixact events that is legal in a life of this base, whose multixacts begin so.
pub fn multi_front(
    alloc: Global,
    base: Counters,
    starts: &[Start],
    multis: &[MultiEvent],
) -> Result<MultiPlaces, Memory>
    requires base { IsBase base }
    requires starts { FitsBase base starts.now }
    ensures { IfOk result (λ p. IsMultiFront base starts.now multis.now p) }
{
    let mut places = MultiPlaces::new(alloc, base, starts, multis.len())?;
    for event in multis {
        if !places.add(starts, event)? {
            return Ok(places);
        }
    }
    Ok(places)
}

fn events_in(places: &MultiPlaces) -> u64
    ensures legal { AreLegalMultis places.now.base (BeginsAs places.now.starts) places.now.events }
    ensures count { result ≡ length places.now.events }
{
    places.events().len() as u64
}

/// Whether the multixact events are legal up to this place, at most their end.
pub fn are_legal_to(places: &MultiPlaces, to: u64) -> bool
    ensures { (base : Counters) (starts : List Start) (h : List MultiEvent) → IsMultiFront base starts h places.now → to ≤ length h → IsTrue result ↔ AreLegalMultis base (BeginsAs starts) (take to h) }
{
    to <= events_in(places)
}

/// Whether the multixact event at this place may come there, where all are legal up to it.
pub fn multi_may_come_at(places: &MultiPlaces, place: u64) -> bool
    ensures { (base : Counters) (starts : List Start) (h : List MultiEvent) (e : MultiEvent) → IsMultiFront base starts h places.now → AreLegalMultis base (BeginsAs starts) (take place h) → slice_get h place ≡ Some e → IsTrue result ↔ MultiMayCome base (BeginsAs starts) (take place h) e }
{
    place < events_in(places)
}
