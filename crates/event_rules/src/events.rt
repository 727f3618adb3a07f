//! The rule of an event's line.
ghost use Rattle.std.specs.Prelude.{◌≡◌, ◌<◌, ◌+◌, ◌↔◌, ℕ, IsTrue, OnOk, Some, false, get_or, length, slice_get};
ghost use Rattle.std.specs.BTreeSet.{contains};
ghost use Rattle.std.specs.List.{list_any};
ghost use Rattle.std.specs.Ordering.{nat_cmp};
ghost use Rattle.tx_events.specs.Events.{by_of};
ghost use Rattle.life_law.specs.Pending.{is_commit_of};
ghost use Rattle.place_columns.specs.Lined.{lines_from};
ghost use Rattle.report_law.specs.Events.{IsCommitLogged, StandsAt};
ghost use Rattle.report_law.specs.Steps.{Judged, lines_of};
ghost use Rattle.event_rules.specs.Lined.{AreLinesInOrder, events_in};
ghost use Rattle.event_rules.specs.Told.{AreMarked, AreToldEvents, IsItsEvent, IsToldEvent};

use crate::both::{is_in_time, is_told_by, stands};
use id_sets::IdSet;
use place_columns::{LineTable, OwnEvents};
use tx_events::{Event, Memory};

/// Whether a commit has its record. These are the tops of the records of commits.
fn is_commit_logged(tops: &IdSet, event: &Event) -> bool
    ghost j: { Judged }
    requires { (x : ℕ) → contains nat_cmp tops.now x ≡ list_any (is_commit_of x) j.life.recs }
    ensures { IsTrue result ↔ IsCommitLogged j event.now }
{
    match event {
        Event::Commit { top, .. } => tops.contains(top.number()),
        _ => true,
    }
}

/// What is said of the event of this rank among those that begin there.
fn said_at(told: &[bool], first: u64, rank: u64) -> bool
    ensures { result ≡ get_or told.now (first + rank) false }
{
    match first.checked_add(rank) {
        Some(at) => told.get(at as usize).copied().unwrap_or(false),
        None => false,
    }
}

/// Whether the event at this place is told by its command's reply in its turn.
fn is_told_at(own: &OwnEvents, told: &[bool], place: u64) -> bool
    ghost j: { Judged }
    requires order { AreLinesInOrder j }
    requires numbers { own.now ≡ events_in j }
    requires told { AreToldEvents j (length (lines_of j)) told.now }
    requires within { place < length j.life.events }
    ensures { (e : _) → slice_get j.life.events place ≡ Some e → (s : StandsAt j (by_of e)) → IsTrue result ↔ IsToldEvent j place e s }
{
    let first = own.count_before(own.number_at(place));
    said_at(told, first, own.rank_at(place))
}

/// Whether each of these events is the one that is told in its turn, behind what is said of others.
pub fn mark_told(marks: &mut Vec<bool>, own: &[Event], told: &[Event]) -> Result<(), Memory>
    ensures { OnOk result (AreMarked marks.old.items marks.new.items own.now told.now) }
{
    for (rank, event) in own.iter().enumerate() {
        marks.push(is_told_by(told, rank as u64, event))?;
    }
    Ok(())
}

/// Whether the event at this place is of a command of the life, of no earlier step than one before it, the one that the
/// command's reply tells in its turn, and logged where it is a commit. `told` says line by line of each event whether its
/// line's reply tells it, and `tops` has the tops of the records of commits.
pub fn is_its_event(
    table: &LineTable,
    own: &OwnEvents,
    told: &[bool],
    tops: &IdSet,
    events: &[Event],
    place: u64,
) -> bool
    ghost j: { Judged }
    requires lines { table.now ≡ lines_from 0 j.steps }
    requires order { AreLinesInOrder j }
    requires numbers { own.now ≡ events_in j }
    requires events { events.now ≡ j.life.events }
    requires told { AreToldEvents j (length (lines_of j)) told.now }
    requires tops { (x : ℕ) → contains nat_cmp tops.now x ≡ list_any (is_commit_of x) j.life.recs }
    requires within { place < length events.now }
    ensures { (e : _) → slice_get events.now place ≡ Some e → IsTrue result ↔ IsItsEvent j place e }
{
    let event = &events[place as usize];
    let number = own.number_at(place);
    if !stands(table, number) {
        return false;
    }
    if !is_in_time(table, own, events, place, number) {
        return false;
    }
    if !is_commit_logged(tops, event) {
        return false;
    }
    is_told_at(own, told, place)
}
