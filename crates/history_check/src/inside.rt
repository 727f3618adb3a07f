//! Which open ids were given in a savepoint.
ghost use Rattle.std.specs.Prelude.{◌≡◌, ◌&&◌, ◌<◌, ◌∷◌, [], IfOk, cond, is_some, length, map};
ghost use Rattle.std.specs.List.{AllByRecursion, filter};
ghost use Rattle.tx_events.specs.Running.{open_ids};
ghost use Rattle.tx_events.specs.Savepoints.{is_inside};
ghost use Rattle.history_check.specs.Inside.{AreInside, IsStart};
ghost use Rattle.history_check.specs.Links.{AreLinked, id_at, links_of, opens};
ghost use Rattle.history_check.specs.Opened.{AreOpened, IsOpened};

use crate::links::{Slot, place_of, push_children, push_where};
use crate::opened::Opened;
use proc_table::ProcTable;
use std::alloc::Global;
use tx_events::{FullXid, Memory};

/// Whether it is open and no top-level id.
fn is_open_sub(slot: &Slot) -> bool
    ensures { result ≡ (slot.now.is_open && is_some slot.now.linked.parent) }
{
    slot.is_open && slot.linked.parent.is_some()
}

fn place_if(alloc: Global, yes: bool, place: usize) -> Result<Vec<usize>, Memory>
    ensures { IfOk result (λ found. found.items ≡ cond yes (place ∷ []) []) }
{
    let mut found = Vec::new(alloc);
    push_where(&mut found, yes, place)?;
    Ok(found)
}

/// Where this id stands, if it is open and no top-level id.
fn start_at(alloc: Global, slots: &[Slot], id: FullXid) -> Result<Vec<usize>, Memory>
    requires { AreLinked (links_of slots.now) }
    ensures { IfOk result (λ found. IsStart slots.now id found.items) }
{
    match place_of(slots, id) {
        Some(place) => place_if(alloc, is_open_sub(&slots[place]), place),
        None => Ok(Vec::new(alloc)),
    }
}

/// The places of the session's open ids that were given in the savepoint of `id`: what was given below one of them is one
/// of them.
fn places_inside(
    alloc: Global,
    table: &ProcTable,
    session: u32,
    slots: &[Slot],
    id: FullXid,
) -> Result<Vec<usize>, Memory>
    requires opened { AreOpened table.now.events session (opens slots.now) }
    requires linked { AreLinked (links_of slots.now) }
    ensures { IfOk result (λ found. AreInside table.now.events id slots.now found.items) }
{
    let _legal = table.events();
    let mut found = start_at(alloc, slots, id)?;
    for next in 0..usize::MAX {
        if next >= found.len() {
            return Ok(found);
        }
        push_children(slots, found[next], &mut found)?;
    }
    Ok(found)
}

/// The ids at these places.
fn ids_at(alloc: Global, slots: &[Slot], places: &[usize]) -> Result<Vec<FullXid>, Memory>
    requires { AllByRecursion (λ k. k < length slots.now) places.now }
    ensures { IfOk result (λ ids. ids.items ≡ map (id_at slots.now) places.now) }
{
    let mut ids = Vec::with_capacity(alloc, places.len())?;
    for place in places {
        ids.push(slots[*place].linked.id)?;
    }
    Ok(ids)
}

/// Those of the session's open ids that were given in the savepoint of `id`, ascending. Takes what it finds, times the
/// logarithm of that.
pub fn ids_inside(
    alloc: Global,
    table: &ProcTable,
    session: u32,
    opened: &Opened,
    id: FullXid,
) -> Result<Vec<FullXid>, Memory>
    requires { IsOpened table.now.events session opened.now }
    ensures { IfOk result (λ ids. ids.items ≡ filter (is_inside table.now.events id) (open_ids session table.now.events)) }
{
    let _legal = table.events();
    let mut places = places_inside(alloc, table, session, &opened.slots, id)?;
    places.sort_unstable();
    places.dedup();
    ids_at(alloc, &opened.slots, &places)
}
