//! A history up to its first event that may not come.
ghost use Rattle.std.specs.Prelude.{◌≡◌, ◌<◌, ◌≤◌, ◌↔◌, List, Option, Some, IfOk, IsTrue, length, slice_get, take};
ghost use Rattle.std.specs.List.{All};
ghost use Rattle.std.specs.Option.{option_copied};
ghost use Rattle.tx_events.specs.declared.event.By.{By};
ghost use Rattle.tx_events.specs.declared.event.Event.{Event};
ghost use Rattle.tx_events.specs.declared.record.Counters.{Counters};
ghost use Rattle.tx_events.specs.declared.snapshot.SnapData.{SnapData};
ghost use Rattle.tx_events.specs.Base.{IsBase};
ghost use Rattle.tx_events.specs.Events.{by_of};
ghost use Rattle.tx_events.specs.History.{ComesInTurn, IsLegal, MayCome};
ghost use Rattle.history_places.specs.SnapMarks.{AreSnapMarks, IsSnapMark};
ghost use Rattle.history_places.specs.Opens.{AreOpenCounts};
ghost use Rattle.event_rules.specs.Fronts.{AreTold, IsFront, list_at};

use history_places::{HistoryPlaces, SnapMark, open_now, snap_mark};
use place_columns::OwnEvents;
use std::alloc::Global;
use tx_events::{Counters, Event, Memory};
use tx_model::SharedSnap;

/// The legal front of a history: what its places tell, of each of its events that takes a snapshot what is kept of that, and
/// how many ids the session of each has open behind it.
#[derive(Drop)]
pub struct HistoryFront {
    pub places: HistoryPlaces,
    pub snaps: Vec<Option<SnapMark>>,
    pub opened: Vec<u64>,
}

/// What the reply of the line of this number tells of a snapshot, if it does.
fn told_at(lists: &[Option<SharedSnap>], line: u64) -> Option<&SharedSnap>
    ensures { option_copied result ≡ list_at lists.now line }
{
    match lists.get(line as usize) {
        Some(told) => told.as_ref(),
        None => None,
    }
}

/// What is kept of the snapshot that the event takes, if it comes next.
fn mark_of(
    places: &mut HistoryPlaces,
    event: &Event,
    lists: &[Option<SharedSnap>],
    line: u64,
) -> Result<Option<SnapMark>, Memory>
    ensures same { places.new ≡ places.old }
    ensures mark { IfOk result (λ o. IsSnapMark places.old.base.next places.old.events (list_at lists.now line) event.now o) }
{
    match event {
        Event::Snap { .. } => {
            let holds = places.snapshot_data()?;
            Ok(Some(snap_mark(&holds, told_at(lists, line))))
        }
        _ => Ok(None),
    }
}

/// The longest front of these events that is legal in a life of this base. `own` says of which line each event is, and
/// `lists` what the reply of each line tells of a snapshot, if it does.
pub fn history_front(
    alloc: Global,
    base: Counters,
    sessions: u32,
    events: &[Event],
    own: &OwnEvents,
    lists: &[Option<SharedSnap>],
) -> Result<HistoryFront, Memory>
    requires base { IsBase base }
    requires sessions { sessions ≤ 64 }
    requires each { All (λ e. (by_of e).session < sessions) events.now }
    requires own { length own.now.numbers ≡ length events.now }
    ensures front { IfOk result (λ f. IsFront base events.now f.places) }
    ensures snaps { IfOk result (λ f. (told_by : By → Option SnapData) → AreTold told_by events.now own.now.numbers lists.now → AreSnapMarks base.next f.places.events told_by f.snaps.items) }
    ensures opened { IfOk result (λ f. AreOpenCounts f.places.events f.opened.items) }
{
    let mut places = HistoryPlaces::new(alloc, base, sessions, events.len())?;
    let mut snaps = Vec::with_capacity(alloc, events.len())?;
    let mut opened = Vec::with_capacity(alloc, events.len())?;
    for (place, event) in events.iter().enumerate() {
        let mark = mark_of(&mut places, event, lists, own.number_at(place as u64))?;
        if !places.add(event)? {
            return Ok(HistoryFront {
                places,
                snaps,
                opened,
            });
        }
        snaps.push(mark)?;
        opened.push(open_now(places.replay(), event))?;
    }
    Ok(HistoryFront {
        places,
        snaps,
        opened,
    })
}

/// How many events the front has.
fn events_in(places: &HistoryPlaces) -> u64
    ensures legal { IsLegal places.now.base places.now.events }
    ensures count { result ≡ length places.now.events }
{
    places.replay().events().len() as u64
}

/// Whether the history is legal up to this place, at most its end.
pub fn is_legal_to(places: &HistoryPlaces, to: u64) -> bool
    ensures { (base : Counters) (h : List Event) → IsFront base h places.now → to ≤ length h → IsTrue result ↔ IsLegal base (take to h) }
{
    to <= events_in(places)
}

/// Whether the event at this place may come there, and in its session's turn, where the history is legal up to it.
pub fn may_come_at(places: &HistoryPlaces, place: u64) -> bool
    ensures { (base : Counters) (h : List Event) (e : Event) → IsFront base h places.now → IsLegal base (take place h) → slice_get h place ≡ Some e → IsTrue result ↔ (MayCome base (take place h) e × ComesInTurn (take place h) e) }
{
    place < events_in(places)
}
