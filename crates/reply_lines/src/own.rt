//! The events of one line's command.
ghost use Rattle.std.specs.Prelude.{◌≡◌, ◌≤◌, ◌++◌, ◌∷◌, [], List, Some, IfOk, OnOk, length, map, slice_get};
ghost use Rattle.tx_events.specs.declared.event.By.{By};
ghost use Rattle.tx_events.specs.Events.{by_of, events_of, given};
ghost use Rattle.tx_events.specs.Multis.{multi_by};
ghost use Rattle.place_columns.specs.declared.lines.LineAt.{LineAt};
ghost use Rattle.place_columns.specs.Lined.{AreInOrder, bys_of, numbered};
ghost use Rattle.report_law.specs.Places.{multis_of};

use place_columns::OwnEvents;
use std::alloc::Global;
use tx_events::{Copied, Event, FullXid, Memory, MultiEvent};

/// The events of the command whose line has this number, in order.
pub fn events_at(
    alloc: Global,
    events: &[Event],
    own: &OwnEvents,
    number: u64,
) -> Result<Vec<Event>, Memory>
    requires numbers { (lines : List LineAt) × (own.now ≡ numbered lines (map by_of events.now)) }
    requires within { number ≤ length own.now.steps }
    ensures { IfOk result (λ es. (lines : List LineAt) (by : By) → own.now ≡ numbered lines (map by_of events.now) → AreInOrder (bys_of lines) → slice_get (bys_of lines) number ≡ Some by → es.items ≡ events_of by events.now) }
{
    let mut copies = Vec::new(alloc);
    for place in own.places(number) {
        copies.push(events[*place as usize].copy()?)?;
    }
    Ok(copies)
}

/// Adds the id that the event gives, if it gives one.
fn add_id(ids: &mut Vec<FullXid>, event: &Event) -> Result<(), Memory>
    ensures { OnOk result (ids.new.items ≡ ids.old.items ++ given (event.now ∷ [])) }
{
    match event {
        Event::Id { id, .. } => {
            ids.push(*id)?;
            Ok(())
        }
        Event::Sub { id, .. } => {
            ids.push(*id)?;
            Ok(())
        }
        _ => Ok(()),
    }
}

/// The ids that they give.
pub fn ids_at(
    alloc: Global,
    events: &[Event],
    own: &OwnEvents,
    number: u64,
) -> Result<Vec<FullXid>, Memory>
    requires numbers { (lines : List LineAt) × (own.now ≡ numbered lines (map by_of events.now)) }
    requires within { number ≤ length own.now.steps }
    ensures { IfOk result (λ ids. (lines : List LineAt) (by : By) → own.now ≡ numbered lines (map by_of events.now) → AreInOrder (bys_of lines) → slice_get (bys_of lines) number ≡ Some by → ids.items ≡ given (events_of by events.now)) }
{
    let mut ids = Vec::new(alloc);
    for place in own.places(number) {
        add_id(&mut ids, &events[*place as usize])?;
    }
    Ok(ids)
}

/// Its multixact events.
pub fn multis_at(
    alloc: Global,
    multis: &[MultiEvent],
    own: &OwnEvents,
    number: u64,
) -> Result<Vec<MultiEvent>, Memory>
    requires numbers { (lines : List LineAt) × (own.now ≡ numbered lines (map multi_by multis.now)) }
    requires within { number ≤ length own.now.steps }
    ensures { IfOk result (λ es. (lines : List LineAt) (by : By) → own.now ≡ numbered lines (map multi_by multis.now) → AreInOrder (bys_of lines) → slice_get (bys_of lines) number ≡ Some by → es.items ≡ multis_of by multis.now) }
{
    let mut copies = Vec::new(alloc);
    for place in own.places(number) {
        copies.push(multis[*place as usize].copy()?)?;
    }
    Ok(copies)
}
