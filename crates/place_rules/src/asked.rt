//! The rules of replies that go by the command's own events: how an id stood where it was asked for, and whether one came
//! with a warning.
ghost use Rattle.std.specs.Prelude.{◌≡◌, ◌==◌, ℕ, ◌<◌, ◌≤◌, ◌↔◌, IsTrue, Some, List, length, map, take};
ghost use Rattle.std.specs.BTreeSet.{contains};
ghost use Rattle.std.specs.Ordering.{nat_cmp};
ghost use Rattle.std.specs.List.{list_any, slice_get};
ghost use Rattle.tx_events.specs.declared.event.By.{By};
ghost use Rattle.tx_events.specs.Events.{by_of, given_by};
ghost use Rattle.tx_events.specs.History.{next_given};
ghost use Rattle.tx_events.specs.Horizon.{oldest_id};
ghost use Rattle.tx_events.specs.Limits.{warn_limit};
ghost use Rattle.tx_model.specs.Replies.{IsWarned, status_after};
ghost use Rattle.report_law.specs.Kinds.{IsAskAt};
ghost use Rattle.history_places.specs.IdMarks.{AreMarks};
ghost use Rattle.report_law.specs.Steps.{IsFutureAt, IsStatusAt};
ghost use Rattle.place_rules.specs.Runs.{AreItsPlaces, Asking, IsAsk, IsFutureHere, IsStatusHere, IsWarnedHere};

use crate::visible::legal;
use history_places::{HistoryPlaces, IdMark, was_running, was_visible};
use std::collections::BTreeSet;
use tx_events::{Event, FullXid, Limits};
use tx_model::Status;

fn is_ask(event: &Event) -> bool
    ensures { IsTrue result ↔ IsAsk event.now }
{
    matches!(event, Event::Ask { .. })
}

/// The id that the event gives.
fn given_by(event: &Event) -> Option<FullXid>
    ensures { result ≡ given_by event.now }
{
    match event {
        Event::Id { id, .. } => Some(*id),
        Event::Sub { id, .. } => Some(*id),
        _ => None,
    }
}

fn is_same(one: Status, other: Status) -> bool
    ensures { IsTrue result ↔ (one ≡ other) }
{
    one == other
}

/// How the id stood at this place.
fn status_at(
    places: &HistoryPlaces,
    marks: &[IdMark],
    committed: &BTreeSet<u64>,
    place: u64,
    x: FullXid,
) -> Status
    ghost ids: { List ℕ }
    requires known { (y : ℕ) → contains nat_cmp committed.now y ≡ list_any (λ z. z == y) ids }
    requires marks { AreMarks places.now.events marks.now }
    requires place { place ≤ length places.now.events }
    ensures { result ≡ status_after ids (take place places.now.events) x }
{
    if was_running(marks, place, x) {
        return Status::InProgress;
    }
    if was_visible(places.replay(), committed, place, x) {
        return Status::Committed;
    }
    Status::Aborted
}

/// Whether the command asks at this place.
fn asks(places: &HistoryPlaces, place: u64) -> bool
    ghost by: { By }
    requires its { slice_get (map by_of places.now.events) place ≡ Some by }
    ensures { IsTrue result ↔ IsAskAt places.now.events by place }
{
    is_ask(&places.replay().events()[place as usize])
}

/// Whether the id is one from the oldest to below the next one at this place.
fn is_within(places: &HistoryPlaces, place: u64, x: FullXid) -> bool
    requires { place ≤ length places.now.events }
    ensures { IsTrue result ↔ ((oldest_id places.now.base.oldest (take place places.now.events) ≤ x) × (x < next_given places.now.base.next (take place places.now.events))) }
{
    places.oldest_at(place) <= x && x < places.next_at(place)
}

/// Whether the command asks at this place, where the id stood so.
fn stood_so(
    places: &HistoryPlaces,
    marks: &[IdMark],
    committed: &BTreeSet<u64>,
    place: u64,
    x: FullXid,
    status: Status,
) -> bool
    ghost asking: { Asking }
    requires known { (y : ℕ) → contains nat_cmp committed.now y ≡ list_any (λ z. z == y) asking.ids }
    requires marks { AreMarks places.now.events marks.now }
    requires its { slice_get (map by_of places.now.events) place ≡ Some asking.by }
    ensures { IsTrue result ↔ IsStatusHere places.now.base asking.ids places.now.events asking.by x status place }
{
    if !asks(places, place) {
        return false;
    }
    if !is_within(places, place, x) {
        return false;
    }
    is_same(status, status_at(places, marks, committed, place, x))
}

/// Whether the id stood so where the command asked. These are the places of its events; `committed` are the ids that the
/// base has as committed.
pub fn is_status_at(
    places: &HistoryPlaces,
    marks: &[IdMark],
    committed: &BTreeSet<u64>,
    run: &[u64],
    x: FullXid,
    status: Status,
) -> bool
    ghost asking: { Asking }
    requires known { (y : ℕ) → contains nat_cmp committed.now y ≡ list_any (λ z. z == y) asking.ids }
    requires marks { AreMarks places.now.events marks.now }
    requires run { AreItsPlaces places.now.events asking.by run.now }
    ensures { IsTrue result ↔ IsStatusAt places.now.base asking.ids places.now.events asking.by x status }
{
    for place in run {
        if stood_so(places, marks, committed, *place, x, status) {
            return true;
        }
    }
    false
}

/// Whether the command asks at this place, where the next id was this one.
fn asks_before(places: &HistoryPlaces, place: u64, next: FullXid) -> bool
    ghost by: { By }
    requires its { slice_get (map by_of places.now.events) place ≡ Some by }
    ensures { IsTrue result ↔ IsFutureHere places.now.base places.now.events by next place }
{
    asks(places, place) && places.next_at(place) == next
}

/// Whether the next id was this one where the command asked for the id `x`, which isn't below it. These are the places of
/// its events.
pub fn is_future_at(places: &HistoryPlaces, run: &[u64], x: FullXid, next: FullXid) -> bool
    ghost by: { By }
    requires run { AreItsPlaces places.now.events by run.now }
    ensures { IsTrue result ↔ IsFutureAt places.now.base places.now.events by x next }
{
    if x < next {
        return false;
    }
    for place in run {
        if asks_before(places, *place, next) {
            return true;
        }
    }
    false
}

/// Whether the id is at or past the limit for a warning at this place.
fn is_late(places: &HistoryPlaces, place: u64, id: FullXid) -> bool
    requires { place ≤ length places.now.events }
    ensures { IsTrue result ↔ (warn_limit (oldest_id places.now.base.oldest (take place places.now.events)) ≤ id) }
{
    legal(places);
    Limits::of(places.oldest_at(place)).warn <= id
}

/// Whether the command is given an id at this place with a warning.
fn warns(places: &HistoryPlaces, place: u64) -> bool
    ghost by: { By }
    requires its { slice_get (map by_of places.now.events) place ≡ Some by }
    ensures { IsTrue result ↔ IsWarnedHere places.now.base places.now.events by place }
{
    match given_by(&places.replay().events()[place as usize]) {
        Some(id) => is_late(places, place, id),
        None => false,
    }
}

/// Whether the command was given an id with a warning. These are the places of its events.
pub fn is_warned(places: &HistoryPlaces, run: &[u64]) -> bool
    ghost by: { By }
    requires run { AreItsPlaces places.now.events by run.now }
    ensures { IsTrue result ↔ IsWarned places.now.base places.now.events by }
{
    for place in run {
        if warns(places, *place) {
            return true;
        }
    }
    false
}
