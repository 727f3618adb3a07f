//! What is kept of the ids that were given: where each was committed.
ghost use Rattle.std.specs.Prelude.{◌≡◌, ◌≤◌, ◌<◌, List, [], ◌∷◌, ◌++◌, IfSome, IfNone, length, map, take};
ghost use Rattle.std.specs.Vec.{vec_len, vec_capacity};
ghost use Rattle.tx_events.specs.declared.event.Event.{Event};
ghost use Rattle.tx_events.specs.declared.record.Counters.{Counters};
ghost use Rattle.tx_events.specs.History.{IsLegal};
ghost use Rattle.tx_events.specs.IdLists.{Ascending};
ghost use Rattle.history_check.specs.GivenIds.{AreKept, IsMissing, IsPlaceOf, given_after, given_ids, is_committed, was_before, with_place};
ghost use Rattle.history_check.specs.Links.{opens};
ghost use Rattle.history_check.specs.Opened.{opened_ids};

use crate::links::Slot;
use crate::opened::Opened;
use tx_events::{Event, FullXid};

/// What is kept of an id that was given.
#[derive(Clone, Copy, Debug, PartialEq, Eq)]
pub struct GivenId {
    pub id: FullXid,
    /// The place of the event by which it committed, if it did.
    pub committed: Option<u64>,
}

/// Where the id is kept. None where it isn't.
fn place_of(items: &[GivenId], x: FullXid) -> Option<usize>
    requires { Ascending (given_ids items.now) }
    ensures some { IfSome result (IsPlaceOf items.now x) }
    ensures none { IfNone result (IsMissing items.now x) }
{
    items.binary_search_by_key(&x, |g| g.id).ok()
}

fn was_before(committed: Option<u64>, place: u64) -> bool
    ensures { result ≡ was_before committed place }
{
    match committed {
        Some(at) => at < place,
        None => false,
    }
}

/// Whether the id had committed at the place of the history that these ids are of, and no savepoint round it was rolled
/// back. Takes a binary search.
pub fn was_committed(items: &[GivenId], place: u64, x: FullXid) -> bool
    requires { Ascending (given_ids items.now) }
    ensures { (base : Counters) (h : List Event) → IsLegal base h → AreKept h items.now → place ≤ length h → result ≡ is_committed (take place h) x }
{
    match place_of(items, x) {
        Some(at) => was_before(items[at].committed, place),
        None => false,
    }
}

/// The same, where the place `near` is tried first.
fn place_near(items: &[GivenId], near: usize, x: FullXid) -> Option<usize>
    requires { Ascending (given_ids items.now) }
    ensures some { IfSome result (IsPlaceOf items.now x) }
    ensures none { IfNone result (IsMissing items.now x) }
{
    if near < items.len() && items[near].id == x {
        return Some(near);
    }
    place_of(items, x)
}

/// The id was committed at this place. It is looked for at `near` first; answers where it stands, or `near`.
fn mark(items: &mut [GivenId], near: usize, place: u64, x: FullXid) -> usize
    requires { Ascending (given_ids items.old) }
    ensures { items.new ≡ map (with_place (x ∷ []) place) items.old }
{
    match place_near(items, near, x) {
        Some(at) => {
            items[at].committed = Some(place);
            at
        }
        None => near,
    }
}

/// The id was committed at this place, if it is open. It is looked for at `near` first; answers where the next one is to
/// be looked for.
fn mark_open(items: &mut [GivenId], near: usize, place: u64, slot: &Slot) -> usize
    requires { Ascending (given_ids items.old) }
    ensures { items.new ≡ map (with_place (opened_ids (opens (slot.now ∷ []))) place) items.old }
{
    if slot.is_open {
        return mark(items, near, place, slot.linked.id).saturating_add(1);
    }
    near.saturating_add(1)
}

/// The open ones were committed at this place. Mostly they were given last, one behind the other.
fn mark_all(items: &mut [GivenId], place: u64, slots: &[Slot])
    requires { Ascending (given_ids items.old) }
    ensures { items.new ≡ map (with_place (opened_ids (opens slots.now)) place) items.old }
{
    let mut near = items.len().saturating_sub(slots.len());
    for slot in slots {
        near = mark_open(items, near, place, slot);
    }
}

/// Keeps what the event at this place says of ids, whose session has these open. For one more there is room.
pub fn note_given(items: &mut Vec<GivenId>, opened: &Opened, place: u64, event: &Event)
    requires order { Ascending (given_ids items.old.items) }
    requires room { vec_len items.old < vec_capacity items.old }
    ensures { items.new.items ≡ given_after (opened_ids (opens opened.now.slots.items)) place event.now items.old.items }
{
    match event {
        Event::Id { id, .. } => items.push_reserved(GivenId {
            id: *id,
            committed: None,
        }),
        Event::Sub { id, .. } => items.push_reserved(GivenId {
            id: *id,
            committed: None,
        }),
        Event::Commit { .. } => mark_all(items, place, &opened.slots),
        _ => (),
    }
}
