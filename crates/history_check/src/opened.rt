//! The ids that a session has open, by which an event is judged and an undo finds what it closes.
ghost use Rattle.std.specs.Prelude.{◌≡◌, ◌<◌, ◌++◌, ◌∷◌, [], None, Some, Contains, IfOk, OnOk, not};
ghost use Rattle.std.specs.List.{AllByRecursion, filter};
ghost use Rattle.std.specs.Vec.{vec_len, vec_capacity};
ghost use Rattle.tx_events.specs.declared.event.Event.{Event};
ghost use Rattle.tx_events.specs.Events.{by_of};
ghost use Rattle.tx_events.specs.IdLists.{Ascending, has};
ghost use Rattle.history_check.specs.declared.links.OpenId.{OpenId};
ghost use Rattle.history_check.specs.Links.{link_ids, links_of, opens};
ghost use Rattle.history_check.specs.Opened.{AreClosed, IsClosed, IsFresh, IsKept, IsNoted, IsOneMore, IsOpened, MayAdd, opened_ids};

use crate::inside::ids_inside;
use crate::links::{Slot, place_of, push_sub, push_top};
use proc_table::ProcTable;
use std::alloc::Global;
use tx_events::{Event, FullXid, Memory, make_one_room};

/// The ids of a session's transaction, ascending. They stay until it ends, so that an undo costs no more than what it
/// closes.
#[derive(Drop)]
pub struct Opened {
    pub slots: Vec<Slot>,
    /// How many of them are open.
    pub count: usize,
}

/// Nothing is kept of a session.
pub fn none_kept(alloc: Global) -> Opened
    ensures { IsFresh result }
{
    Opened {
        slots: Vec::new(alloc),
        count: 0,
    }
}

pub fn make_room(opened: &mut Opened) -> Result<(), Memory>
    ensures items { opened.new.slots.items ≡ opened.old.slots.items }
    ensures count { opened.new.count ≡ opened.old.count }
    ensures room { OnOk result (vec_len opened.new.slots < vec_capacity opened.new.slots) }
{
    make_one_room(&mut opened.slots)
}

/// The ids that the event closes, if it is an undo.
pub fn closed_by(
    alloc: Global,
    table: &ProcTable,
    opened: &Opened,
    event: &Event,
) -> Result<Vec<FullXid>, Memory>
    requires { IsOpened table.now.events (by_of event.now).session opened.now }
    ensures closed { IfOk result (λ ids. AreClosed event.now table.now.events ids.items) }
    ensures order { IfOk result (λ ids. Ascending ids.items) }
{
    let _legal = table.events();
    match event {
        Event::Undo { by, id } => ids_inside(alloc, table, by.get().session, opened, *id),
        _ => Ok(Vec::new(alloc)),
    }
}

/// A top-level id is given.
fn add_top(opened: &mut Opened, id: FullXid)
    requires kept { IsKept opened.old }
    requires above { AllByRecursion (λ x. x < id) (link_ids (links_of opened.old.slots.items)) }
    requires room { vec_len opened.old.slots < vec_capacity opened.old.slots }
    ensures { IsOneMore id None opened.old opened.new }
{
    push_top(&mut opened.slots, id);
    opened.count += 1;
}

/// An id is given below this one.
fn add_sub(opened: &mut Opened, parent: FullXid, id: FullXid)
    requires kept { IsKept opened.old }
    requires above { AllByRecursion (λ x. x < id) (link_ids (links_of opened.old.slots.items)) }
    requires parent { Contains (link_ids (links_of opened.old.slots.items)) parent }
    requires room { vec_len opened.old.slots < vec_capacity opened.old.slots }
    ensures { IsOneMore id (Some parent) opened.old opened.new }
{
    push_sub(&mut opened.slots, parent, id);
    opened.count += 1;
}

/// The id isn't open any more, if it was.
fn close(opened: &mut Opened, id: FullXid)
    requires { IsKept opened.old }
    ensures { IsClosed id opened.old opened.new }
{
    match place_of(&opened.slots, id) {
        Some(place) => {
            if opened.slots[place].is_open {
                opened.slots[place].is_open = false;
                opened.count -= 1;
            }
        }
        None => (),
    }
}

fn close_all(opened: &mut Opened, closed: &[FullXid])
    requires { IsKept opened.old }
    ensures opened { opens opened.new.slots.items ≡ filter (λ (o : OpenId). not (has closed.now o.id)) (opens opened.old.slots.items) }
    ensures kept { IsKept opened.new }
    ensures ids { link_ids (links_of opened.new.slots.items) ≡ link_ids (links_of opened.old.slots.items) }
{
    for id in closed {
        close(opened, *id);
    }
}

/// The transaction has ended.
fn clear(opened: &mut Opened)
    ensures { IsFresh opened.new }
{
    opened.slots.clear();
    opened.count = 0;
}

/// Keeps what the event leaves of its session's open ids, where an undo closes these. For one more there is room.
pub fn note_opened(opened: &mut Opened, closed: &[FullXid], event: &Event)
    requires kept { IsKept opened.old }
    requires add { MayAdd event.now (link_ids (links_of opened.old.slots.items)) }
    requires room { vec_len opened.old.slots < vec_capacity opened.old.slots }
    ensures { IsNoted event.now closed.now opened.old opened.new }
{
    match event {
        Event::Id { id, .. } => add_top(opened, *id),
        Event::Sub { parent, id, .. } => add_sub(opened, *parent, *id),
        Event::Undo { .. } => close_all(opened, closed),
        Event::Commit { .. } => clear(opened),
        Event::Abort { .. } => clear(opened),
        _ => (),
    }
}

fn push_id(slot: &Slot, ids: &mut Vec<FullXid>) -> Result<(), Memory>
    ensures { OnOk result (ids.new.items ≡ ids.old.items ++ opened_ids (opens (slot.now ∷ []))) }
{
    if slot.is_open {
        ids.push(slot.linked.id)?;
    }
    Ok(())
}

/// Puts the open ids behind these.
pub fn push_ids(slots: &[Slot], ids: &mut Vec<FullXid>) -> Result<(), Memory>
    ensures { OnOk result (ids.new.items ≡ ids.old.items ++ opened_ids (opens slots.now)) }
{
    for slot in slots {
        push_id(slot, ids)?;
    }
    Ok(())
}
